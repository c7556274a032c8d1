//! Elements with the tags of a type (X.680 31).
ghost use Rattle.std.specs.Prelude.{ℕ, ◌≡◌, Some, None, slice_get, IfSome, IfNone, IsTrue};
ghost use Rattle.std.specs.List.{list_any};
ghost use Rattle.asn1_headers.specs.Answers.{HasPrefix};
ghost use Rattle.asn1_schema.specs.Grammar.{has_tag, is_tag_of};
ghost use Rattle.asn1_schema.specs.Build.{has_tag_at};
ghost use Rattle.asn1_schema.specs.Sound.{HasTagAt};
ghost use Rattle.asn1_schema.specs.Reading.{rules_of, id_of, head_parts, BeginsTagged};

use crate::coding::Coding;
use crate::elements::{Head, element};
use crate::schema::{Node, Tags, TypeTag};

/// Whether the identifier has one of the tags.
pub(crate) fn has_a_tag(tags: &Tags, head: Head) -> bool
    ensures { result ≡ has_tag tags.now (id_of head) }
{
    match tags {
        Tags::Among(list) => is_listed(list, head),
        Tags::AllBut(list) => !is_listed(list, head),
    }
}

/// Whether one of the tags is that of the identifier.
fn is_listed(tags: &[TypeTag], head: Head) -> bool
    ensures { result ≡ list_any (is_tag_of (id_of head)) tags.now }
{
    tags.iter()
        .any(|tag| tag.class == head.class && tag.number == head.number)
}

/// The type at a place.
pub(crate) fn node_at(nodes: &[Node], of: usize) -> Option<&Node>
    ensures some { IfSome result (λ node. slice_get nodes.now of ≡ Some node.now) }
    ensures none { IfNone result (slice_get nodes.now of ≡ None) }
{
    nodes.get(of)
}

/// Whether the type at a place has the tag.
pub(crate) fn is_tagged(nodes: &[Node], of: usize, head: Head) -> bool
    ensures value { result ≡ has_tag_at nodes.now (id_of head) of }
    ensures yes { IsTrue result → HasTagAt nodes.now of (id_of head) }
    ensures no { HasTagAt nodes.now of (id_of head) → IsTrue result }
{
    match node_at(nodes, of) {
        Some(node) => has_a_tag(&node.tags, head),
        None => false,
    }
}

/// The element at the front, where it has a tag of the type at a place.
pub(crate) fn tagged_element<'a>(
    coding: Coding,
    nodes: &[Node],
    of: usize,
    octets: &'a [u8],
    at: usize,
) -> Option<(&'a [u8], Head, &'a [u8])>
    ensures some { IfSome result (λ x. HasPrefix (rules_of coding).ElementOf octets.now
        (head_parts x.1
        x.2.now) x.0.now) }
    ensures tagged { IfSome result (λ x. HasTagAt nodes.now of (id_of x.1)) }
    ensures none { IfNone result (BeginsTagged (rules_of coding) nodes.now of octets.now → ⊥) }
{
    let Some((rest, head, content)) = element(coding, octets, at) else {
        return None;
    };
    if !is_tagged(nodes, of, head) {
        return None;
    }
    Some((rest, head, content))
}

/// The arm whose type has the tag, with its place among them.
pub(crate) fn arm_of(nodes: &[Node], arms: &[usize], head: Head) -> Option<(usize, usize)>
    ensures some { IfSome result (λ x. (slice_get arms.now x.0 ≡ Some x.1) ×
        HasTagAt nodes.now x.1 (id_of head)) }
    ensures none { IfNone result ((k t : ℕ) → slice_get arms.now k ≡ Some t →
        HasTagAt nodes.now t (id_of head) → ⊥) }
{
    for (k, of) in arms.iter().enumerate() {
        if is_tagged(nodes, *of, head) {
            return Some((k, *of));
        }
    }
    None
}
