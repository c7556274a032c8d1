//! Object identifiers (X.690 8.19, 8.20).
ghost use Rattle.asn1_schema.specs.declared.schema.Kind.TheVariants as kinds;
ghost use Rattle.std.specs.Prelude.{ℕ, List};
ghost use Rattle.asn1_schema.specs.declared.schema.Node.{Node};
ghost use Rattle.asn1_schema.specs.Reading.{head_parts, IsOfKind, Judges};

use crate::coding::Coding;
use crate::elements::Head;
use crate::fault::Fault;
use crate::tape::Item;
use x690::shortest::are_shortest_arcs;

/// An object identifier, or a relative one.
pub(crate) fn identifier_item<'a>(
    coding: Coding,
    relative: bool,
    head: Head,
    content: &'a [u8],
) -> Result<Item<'a>, Fault>
    ensures { (nodes : List Node) (depth of : ℕ) →
        Judges (IsOfKind coding nodes depth of (kinds.Identifier relative) (head_parts head
        content.now)) result }
{
    if head.constructed {
        return Err(Fault::Refused);
    }
    if !are_shortest_arcs(content) {
        return Err(Fault::Refused);
    }
    Ok(Item::Identifier(relative, content))
}
