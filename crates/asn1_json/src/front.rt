//! What stands at the front of a tape.
ghost use Rattle.std.specs.Prelude.{◌≡◌, ◌≤◌, ◌+◌, ◌<◌, drop, length};
ghost use Rattle.asn1_schema.specs.Tape.{mark, marks};
ghost use Rattle.asn1_json.specs.Walk.{front_of, front_of_mark};

use asn1_schema::tape::Item;

/// What begins a value.
#[derive(Debug, Clone, Copy)]
pub enum Opening {
    /// A leaf, in one piece or in several.
    Leaf,
    /// A row.
    Row,
    /// An arm.
    Arm(usize),
}

/// What stands at the front of a tape.
#[derive(Debug, Clone, Copy)]
pub enum Front {
    /// A value.
    Value(Opening),
    /// The end of a row.
    Close,
    /// A field that is left out.
    Gone,
    /// The end of an arm.
    ArmEnd,
    /// No item, or one that begins nothing.
    Nothing,
}

/// What begins with an item.
fn front_of_item(item: &Item<'_>) -> Front
    ensures { result ≡ front_of_mark (mark item.now) }
{
    match item {
        Item::Begin(_) => Front::Value(Opening::Row),
        Item::End(_) => Front::Close,
        Item::Absent => Front::Gone,
        Item::Arm(arm) => Front::Value(Opening::Arm(*arm)),
        Item::ArmEnd(_) => Front::ArmEnd,
        Item::PiecesEnd(_) => Front::Nothing,
        _ => Front::Value(Opening::Leaf),
    }
}

/// What stands at the front.
pub fn front_of(items: &[Item<'_>]) -> Front
    ensures { result ≡ front_of (marks items.now) }
{
    match items.first() {
        Some(item) => front_of_item(item),
        None => Front::Nothing,
    }
}

/// The items behind the first one.
pub fn behind_first<'t, 'a>(items: &'t [Item<'a>]) -> &'t [Item<'a>]
    ensures { result.now ≡ drop 1 items.now }
{
    items.split_at(items.len().min(1)).1
}
