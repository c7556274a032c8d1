//! Elements of any type.
ghost use Rattle.std.specs.Prelude.{ℕ, List, ◌≢◌, Err, IsTrue};
ghost use Rattle.asn1_schema.specs.declared.fault.Fault.TheVariants as faults;
ghost use Rattle.x690.specs.Elements.{IsDerElement};
ghost use Rattle.x690.specs.Joined.{AreConcatenatedWords};
ghost use Rattle.asn1_schema.specs.declared.schema.Node.{Node};
ghost use Rattle.asn1_schema.specs.declared.schema.Kind.TheVariants as kinds;
ghost use Rattle.asn1_schema.specs.Rules.{IsStrictInside};
ghost use Rattle.asn1_schema.specs.Reading.{head_parts, HoldsAt, Admits, IsOfKind, Judges};

use crate::coding::Coding;
use crate::elements::{Head, der_element, is_at_end};
use crate::fault::Fault;
use crate::tape::Item;

/// Tells whether each element within has a strict header, to a depth (X.690 10.1).
#[cycle(inside)]
fn judge_inside(depth: usize, head: Head, content: &[u8]) -> Result<(), Fault>
    ensures judges { (d : ℕ) → HoldsAt depth result d →
        Admits (IsStrictInside d (head_parts head content.now)) result }
    ensures no_memory { result ≢ Err faults.Memory }
{
    if !head.constructed {
        return Ok(());
    }
    if depth == 0 {
        return Err(Fault::TooDeep);
    }
    judge_elements(depth - 1, content)
}

/// Tells whether the octets are such elements.
#[cycle(inside)]
fn judge_elements(depth: usize, octets: &[u8]) -> Result<(), Fault>
    ensures judges { (d : ℕ) → HoldsAt depth result d →
        Admits (AreConcatenatedWords (λ word q. IsDerElement word q × IsStrictInside d q) octets.now)
        result }
    ensures no_memory { result ≢ Err faults.Memory }
{
    let mut rest = octets;
    while !is_at_end(rest) {
        let Some((tail, head, content)) = der_element(rest, 0) else {
            return Err(Fault::Refused);
        };
        match judge_inside(depth, head, content) {
            Ok(()) => rest = tail,
            Err(e) => return Err(e),
        }
    }
    Ok(())
}

/// Whether each element within has a strict header, to this depth.
pub(crate) fn is_strict_inside(depth: usize, head: Head, content: &[u8]) -> bool
    ensures yes { IsTrue result → IsStrictInside depth (head_parts head content.now) }
    ensures no { IsStrictInside depth (head_parts head content.now) → IsTrue result }
{
    match judge_inside(depth, head, content) {
        Ok(()) => true,
        Err(_) => false,
    }
}

/// An element of any type.
pub(crate) fn any_item<'a>(
    coding: Coding,
    depth: usize,
    head: Head,
    content: &'a [u8],
) -> Result<Item<'a>, Fault>
    ensures { (nodes : List Node) (of d : ℕ) → HoldsAt depth result d →
        Judges (IsOfKind coding nodes d of kinds.Any (head_parts head content.now)) result }
{
    match coding {
        Coding::Der => match judge_inside(depth, head, content) {
            Ok(()) => Ok(Item::Any(head.class, head.constructed, head.number, content)),
            Err(e) => Err(e),
        },
        Coding::Ber(_) => Ok(Item::Any(head.class, head.constructed, head.number, content)),
    }
}
