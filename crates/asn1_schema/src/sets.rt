//! Elements of a set, which stand in any order (X.690 8.11, 10.3).
ghost use Rattle.std.specs.Prelude.{◌≡◌, ◌<◌, false, None, List, IfSome, IfNone, IfOk, IsTrue};
ghost use Rattle.x690.specs.Elements.{Parts};
ghost use Rattle.asn1_schema.specs.Each.{Each};
ghost use Rattle.asn1_schema.specs.declared.refusal.Reason.TheVariants as reasons;
ghost use Rattle.asn1_schema.specs.declared.schema.Node.{Node};
ghost use Rattle.asn1_schema.specs.Sound.{node_at};
ghost use Rattle.asn1_schema.specs.Refusals.{IsOfType, IsTold};
ghost use Rattle.asn1_schema.specs.Rules.{IsTagBefore};
ghost use Rattle.asn1_schema.specs.Reading.{id_of, head_parts};
ghost use Rattle.asn1_schema.specs.Members.{AreElements, AreOrdered, MayFollow, FindsFirst, FindsTagged, Lacks};
ghost use Rattle.asn1_schema.specs.Members.{is_of_field};

use crate::coding::Coding;
use crate::elements::{Head, element, is_at_end};
use crate::refusal::{Reason, Refusal, further};
use crate::schema::{Field, Node};
use crate::tagged::is_tagged;

/// Whether a tag comes before another one (X.680 8.6).
pub(crate) fn is_tag_before(one: Head, other: Head) -> bool
    ensures yes { IsTrue result → IsTagBefore (id_of one) (id_of other) }
    ensures no { IsTagBefore (id_of one) (id_of other) → IsTrue result }
{
    one.class < other.class || (one.class == other.class && one.number < other.number)
}

/// Whether an element may follow one by these rules, if there is one.
fn may_follow(coding: Coding, last: Option<Head>, head: Head) -> bool
    ensures yes { IsTrue result → MayFollow coding last (id_of head) }
    ensures no { MayFollow coding last (id_of head) → IsTrue result }
{
    match coding {
        Coding::Ber(_) => true,
        Coding::Der => match last {
            None => true,
            Some(last) => is_tag_before(last, head),
        },
    }
}

/// Whether the octets are elements in the order that the rules ask for of a set. Tells why they are not.
pub(crate) fn judge_order(
    coding: Coding,
    of: usize,
    octets: &[u8],
    at: usize,
    refusal: &mut Refusal,
) -> bool
    ensures yes { IsTrue result → AreOrdered coding None octets.now }
    ensures no { AreOrdered coding None octets.now → IsTrue result }
    ensures told { (table : List Node) → IsOfType reasons.Order (node_at table of) →
        result ≡ false → IsTold table None refusal.new }
{
    let mut rest = octets;
    let mut last = None;
    while !is_at_end(rest) {
        let place = further(at, octets.len(), rest.len());
        let Some((tail, head, _content)) = element(coding, rest, place) else {
            refusal.tell(place, of, Reason::Element);
            return false;
        };
        if !may_follow(coding, last, head) {
            refusal.tell(place, of, Reason::Order);
            return false;
        }
        last = Some(head);
        rest = tail;
    }
    true
}

/// Elements with a tag of a type among others.
#[derive(Debug, Clone, Copy)]
pub enum Found<'a> {
    /// There is none.
    Nothing,
    /// There is one: what its header says, and its contents octets.
    One(Head, &'a [u8]),
    /// There are more. The second one begins here.
    Several(usize),
}

/// The first element with a tag of a type: what follows it, what its header says, and its contents octets.
fn find_first<'a>(
    coding: Coding,
    nodes: &[Node],
    of: usize,
    octets: &'a [u8],
    at: usize,
) -> Option<(&'a [u8], Head, &'a [u8])>
    ensures some { IfSome result (λ x. (es : List Parts) → AreElements coding octets.now es →
        FindsFirst coding nodes.now of es (head_parts x.1 x.2.now) x.0.now) }
    ensures none { IfNone result ((es : List Parts) → AreElements coding octets.now es →
        Each (Lacks nodes.now of) es) }
{
    let mut rest = octets;
    while let Some((tail, head, content)) = element(
        coding,
        rest,
        further(at, octets.len(), rest.len()),
    ) {
        if is_tagged(nodes, of, head) {
            return Some((tail, head, content));
        }
        rest = tail;
    }
    None
}

/// Looks for elements with a tag of a type.
pub(crate) fn find_alone<'a>(
    coding: Coding,
    nodes: &[Node],
    of: usize,
    octets: &'a [u8],
    at: usize,
) -> Found<'a>
    ensures { (es : List Parts) → AreElements coding octets.now es →
        FindsTagged nodes.now of es result }
{
    let Some((tail, head, content)) = find_first(coding, nodes, of, octets, at) else {
        return Found::Nothing;
    };
    let behind = further(at, octets.len(), tail.len());
    match find_first(coding, nodes, of, tail, behind) {
        Some((_, other, _)) => Found::Several(other.start),
        None => Found::One(head, content),
    }
}

/// Whether the element is of one of the fields, by its tag.
pub(crate) fn is_of_a_field(nodes: &[Node], fields: &[Field], head: Head) -> bool
    ensures { result ≡ is_of_field nodes.now fields.now (id_of head) }
{
    fields.iter().any(|field| is_tagged(nodes, field.of, head))
}
