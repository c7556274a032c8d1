//! A number that is compared by a part of it alone: a lawful item, and no lawful member of a set.
ghost use Rattle.std.specs.Prelude.{nat_eq};
ghost use Rattle.std.specs.Cmp.{partial_order_from_own_ties};
ghost use Rattle.std.specs.Cmp.Rules.{comparing, hashing};
ghost use Rattle.std.specs.Hash as fed;
ghost use Rattle.std.specs.Ordering.{on, nat_cmp, as_partial_cmp};
ghost use Rattle.std.proofs.Common.{rules, ap};
ghost use Rattle.x690.specs.Integers.{unsigned_octets};
ghost use Rattle.asn1_rs_members.specs.Remainders.{remainder, valued_reading, valued_exact, valued_written};
ghost use Rattle.asn1_rs_members.specs.Remainders.{whole as value};

use asn1_rs::author::{
    ConvertsLeaf, DerElement, ElementKind, HasKind, LeafType, TagNumber, WritesElement,
};
use asn1_rs::{Any, DerBuffer, DerWrite, Error, SerializeResult};
use std::alloc::Global;
use std::cmp::Ordering;
use std::hash::{Hash, Hasher};

/// A number whose equality, order and hash look at its last decimal digit alone.
///
/// It is read and written as the whole number. So two of them may be equal and have two encodings, and a set keeps one
/// of these. The library makes sets of them all the same; no law says which octets a set has.
#[derive(Debug, Clone, Copy)]
pub struct Remainder(pub u8);

impl PartialEq for Remainder {
    ghost eq = { on (λ x. remainder x.0) nat_eq };

    ghost laws = { Prim.search (comparing, rules) };

    fn eq(&self, other: &Remainder) -> bool {
        self.0 % 10 == other.0 % 10
    }
}

impl Eq for Remainder {
    ghost laws = { Prim.search (comparing, rules) };
}

impl Ord for Remainder {
    ghost cmp = { on (λ x. remainder x.0) nat_cmp };

    ghost total = { Prim.search (comparing, rules) };

    ghost matches_partial_cmp = { Prim.search (comparing, rules) };

    ghost matches_eq = { Prim.search (comparing, rules) };

    fn cmp(&self, other: &Remainder) -> Ordering {
        (self.0 % 10).cmp(&(other.0 % 10))
    }
}

impl PartialOrd for Remainder {
    ghost partial_cmp = { as_partial_cmp (on (λ x. remainder x.0) nat_cmp) };

    ghost laws = { partial_order_from_own_ties (Prim.search (comparing, rules))
        (Prim.search (comparing, rules)) };

    fn partial_cmp(&self, other: &Remainder) -> Option<Ordering> {
        Some(self.cmp(other))
    }
}

impl Hash for Remainder {
    ghost hash_input = { λ x. fed.u8 (remainder x.0) };

    ghost respects_eq = { Prim.search (hashing, rules) };

    fn hash<H: Hasher>(&self, state: &mut H) {
        (self.0 % 10).hash(state);
    }
}

impl HasKind for Remainder {
    type Kind = ElementKind;
}

impl LeafType for Remainder {
    type Number = TagNumber<2>;

    ghost reading = { valued_reading value };

    ghost exact = { valued_exact value (λ m n e. ap unsigned_octets e) };

    fn assert_leaf_valid(&self) {
        self.0.assert_leaf_valid();
    }

    fn check_leaf(any: &Any<'_>) -> Result<(), Error> {
        u8::check_leaf(any)
    }
}

impl<'a> ConvertsLeaf<'a> for Remainder {
    fn convert_leaf(_alloc: Global, any: Any<'a>) -> Result<Remainder, Error> {
        Ok(Remainder(any.u8()?))
    }
}

impl DerElement for Remainder {
    ghost each_der = { λ v d. d };
}

impl WritesElement for Remainder {
    ghost octets = { λ x. unsigned_octets x.0 };

    fn count_octets(&self) -> Result<usize, Error> {
        self.0.count_octets()
    }

    fn put_octets<W: DerWrite>(&self, w: &mut W) -> SerializeResult<usize> {
        self.0.put_octets(w)
    }

    fn prepend_contents(&self, alloc: Global, buf: &mut DerBuffer) -> SerializeResult<usize> {
        self.0.prepend_contents(alloc, buf)
    }

    ghost written = { valued_written value (λ m n e. ap unsigned_octets e) };
}
