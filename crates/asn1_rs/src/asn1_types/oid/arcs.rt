//! The arcs of an object identifier, one by one (X.690 8.19, 8.20).
ghost use Rattle.std.specs.Prelude.{◌≡◌, ℕ, ◌+◌, ◌<◌, ◌≤◌, ◌∷◌, false, length, None, IfSome};
ghost use Rattle.std.specs.Iterator.{UpTo, YieldsFirst, item_count};
ghost use Rattle.std.specs.Iterator.SizeHint.{IsExactHint, IsWithinCount};
ghost use Rattle.x690.specs.Arcs.{arcs_of};
ghost use Rattle.asn1_rs.specs.Oid.Arcs.{arcs_left, GivesArcs};

use crate::asn1_types::oid::Oid;
use crate::asn1_types::oid::iterator::SubIdentifierIterator;
use std::iter::FusedIterator;
use x690::arcs::{arcs_fit, count_subidentifiers, split_subidentifier, subidentifier};

impl Oid<'_> {
    /// The arcs, one by one: `None` where one of them is 2^64 or more.
    ///
    /// The first subidentifier of an object identifier is two arcs, and only the second of these can be so great. A
    /// subidentifier without its last octet counts with the digits that are there.
    #[inline]
    pub fn iter(&self) -> Option<SubIdentifierIterator<'_>>
        ensures { GivesArcs self.now result }
    {
        let left = self.as_bytes();
        if arcs_fit(self.relative, left) {
            Some(SubIdentifierIterator {
                left,
                relative: self.relative,
                second: None,
            })
        } else {
            None
        }
    }
}

/// How many arcs the contents octets have, of a relative identifier or of another one.
fn count_arcs(relative: bool, octets: &[u8]) -> usize
    ensures count { result ≡ length (arcs_of relative octets.now) }
    ensures few { result ≤ length octets.now + 1 }
{
    let count = count_subidentifiers(octets);
    if relative || octets.is_empty() || (octets.len() == 1 && octets[0] == 0) {
        count
    } else {
        count + 1
    }
}

impl SubIdentifierIterator<'_> {
    /// The first arc of an object identifier; the second one is still to come.
    fn split_first(&mut self) -> u64
        requires some { 0 < length self.old.left.now }
        requires first { self.old.relative ≡ false }
        requires none { self.old.second ≡ None }
        ensures { arcs_left self.old ≡ result ∷ arcs_left self.new }
    {
        let left = self.left;
        if left.len() == 1 && left[0] == 0 {
            *self = SubIdentifierIterator {
                left: &left[1..],
                relative: true,
                second: None,
            };
            return 0;
        }
        let (first, second, len) = split_subidentifier(left);
        *self = SubIdentifierIterator {
            left: &left[len..],
            relative: true,
            second: Some(second),
        };
        first
    }
}

impl Iterator for SubIdentifierIterator<'_> {
    type Item = u64;

    ghost next_gives = { YieldsFirst arcs_left };

    ghost remaining = { item_count arcs_left };

    #[inline(always)]
    fn next(&mut self) -> Option<u64> {
        if let Some(second) = self.second {
            self.second = None;
            return Some(second);
        }
        if self.left.is_empty() {
            return None;
        }
        if !self.relative {
            return Some(self.split_first());
        }
        let (arc, len) = subidentifier(self.left);
        self.left = &self.left[len..];
        Some(arc)
    }

    /// How many arcs are left, exactly.
    fn size_hint(&self) -> (usize, Option<usize>)
        ensures lower { IsWithinCount result.0 (item_count arcs_left self.now) }
        ensures upper { IfSome result.1 (UpTo (item_count arcs_left self.now)) }
        ensures exact { IsExactHint result (length (arcs_left self.now)) }
    {
        let len = self.len();
        (len, Some(len))
    }
}

impl ExactSizeIterator for SubIdentifierIterator<'_> {
    fn len(&self) -> usize {
        let pending = usize::from(self.second.is_some());
        pending + count_arcs(self.relative, self.left)
    }
}

impl FusedIterator for SubIdentifierIterator<'_> {}
