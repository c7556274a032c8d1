//! Elements of a set are put in their places by their tags (X.690 10.3).
ghost use Rattle.std.specs.Prelude.{ℕ, List, ◌++◌, ◌+◌, ◌-◌, ◌≡◌, ◌≤◌, length, true, false, None, IfSome, IsTrue};
ghost use Rattle.x690.specs.Elements.{Parts, IsDerElement};
ghost use Rattle.x690.specs.Joined.{IsConcatenation};
ghost use Rattle.asn1_schema.specs.declared.coding.Coding.TheVariants as codings;
ghost use Rattle.asn1_schema.specs.Rules.{TagsAscend};
ghost use Rattle.asn1_schema.specs.Members.{AreOrdered};
ghost use Rattle.asn1_schema.specs.Writing.{HasRoom, Settles};

use crate::coding::Coding;
use crate::elements::element;
use crate::refusal::Refusal;
use crate::sets::{is_tag_before, judge_order};
use asn1_headers::buffer::{DerBuffer, move_behind};

/// Whether the octets are elements that ascend by their tags.
pub(crate) fn are_ascending(octets: &[u8]) -> bool
    ensures yes { IsTrue result → AreOrdered codings.Der None octets.now }
    ensures no { AreOrdered codings.Der None octets.now → IsTrue result }
{
    judge_order(Coding::Der, 0, octets, 0, &mut Refusal::none())
}

/// How many octets of others, which are elements that ascend by their tags, stand before the place of an element. There
/// is none where one of them has its tag.
fn room_for(one: &[u8], others: &[u8]) -> Option<usize>
    ensures within { IfSome result (λ n. n ≤ length others.now) }
    ensures room { (e : Parts) (es : List Parts) → IsDerElement one.now e →
        IsConcatenation IsDerElement others.now es → TagsAscend es → HasRoom e es others.now result }
{
    let Some((_, head, _)) = element(Coding::Der, one, 0) else {
        return None;
    };
    let mut left = others;
    while let Some((tail, next, _)) = element(Coding::Der, left, 0) {
        if is_tag_before(head, next) {
            return Some(others.len() - left.len());
        }
        if !is_tag_before(next, head) {
            return None;
        }
        left = tail;
    }
    Some(others.len() - left.len())
}

/// The octets in front of so many, and those behind them in front of so many.
fn two_parts(buf: &DerBuffer, behind: usize, held: usize) -> (&[u8], &[u8])
    ensures parts { (word others old : List ℕ) → buf.now ≡ word ++ (others ++ old) →
        behind ≡ length (others ++ old) → held ≡ length old →
        (result.0.now ≡ word) × (result.1.now ≡ others) }
    ensures within { length result.0.now + length result.1.now ≤ length buf.now }
    ensures len { length result.0.now ≡ length buf.now - behind }
{
    let octets = buf.as_bytes();
    let (one, others) = octets.split_at(octets.len().saturating_sub(behind));
    let (next, _old) = others.split_at(others.len().saturating_sub(held));
    (one, next)
}

/// Puts the element in front in its place among the others in front of so many octets: behind it stand so many. Says
/// whether it has one. Where nothing is in front there is nothing to do.
pub(crate) fn settle(held: usize, behind: usize, buf: &mut DerBuffer) -> bool
    ensures nothing { length buf.old ≡ behind → (result ≡ true) × (buf.new ≡ buf.old) }
    ensures stays { result ≡ false → buf.new ≡ buf.old }
    ensures settled { (word others old : List ℕ) (e : Parts) (es : List Parts) →
        buf.old ≡ word ++ (others ++ old) → behind ≡ length (others ++ old) → held ≡ length old →
        IsDerElement word e → IsConcatenation IsDerElement others es → TagsAscend es →
        Settles e es old buf.new result }
{
    let (one, others) = two_parts(buf, behind, held);
    let count = one.len();
    if count == 0 {
        return true;
    }
    let Some(by) = room_for(one, others) else {
        return false;
    };
    move_behind(buf, count, by);
    true
}
