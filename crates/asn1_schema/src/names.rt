//! The names of types and of their parts. They stand beside a table, and no decoder looks at them.
ghost use Rattle.std.specs.Prelude.{◌≡◌, ◌≢◌, IfSome, IfNone, true, false};
ghost use Rattle.asn1_schema.specs.Names.{IsPlaceOf, LacksName};

use std::fmt;

/// A name, and the number that it stands for.
///
/// The name of a field or an arm stands for its place among them. The name of a listed number, or of a number of an
/// integer, stands for that number. The name of a bit stands for the place of the bit.
#[derive(Debug, Clone, Copy)]
pub struct PartName<'n> {
    /// The name.
    pub name: &'n str,
    /// The number.
    pub number: i128,
}

/// The names of a type.
#[derive(Debug, Drop)]
pub struct TypeNames<'n> {
    /// The name of the type, which may be empty.
    pub name: &'n str,
    /// The names of its parts.
    pub labels: Vec<PartName<'n>>,
}

/// A label with this name and number.
pub fn label<'n>(name: &'n str, number: i128) -> PartName<'n>
    ensures name { result.name.now ≡ name.now }
    ensures number { result.number ≡ number }
{
    PartName { name, number }
}

/// Whether a part has this name.
fn is_named(label: &PartName<'_>, name: &str) -> bool
    ensures yes { result ≡ true → label.now.name.now ≡ name.now }
    ensures no { result ≡ false → label.now.name.now ≢ name.now }
{
    label.name == name
}

/// The place of the first part that has this name.
pub fn place_of(labels: &[PartName<'_>], name: &str) -> Option<usize>
    ensures some { IfSome result (IsPlaceOf labels.now name.now) }
    ensures none { IfNone result (LacksName labels.now name.now) }
{
    for (place, label) in labels.iter().enumerate() {
        if is_named(label, name) {
            return Some(place);
        }
    }
    None
}

/// Writes the name of a type, or its place where it has none.
pub(crate) fn write_type<W: fmt::Write>(
    f: &mut fmt::Formatter<W>,
    names: &[TypeNames<'_>],
    of: usize,
) -> fmt::Result {
    if let Some(own) = names.get(of) {
        if !own.name.is_empty() {
            let name = own.name;
            return write!(f, "{name}");
        }
    }
    write!(f, "type {of}")
}

/// Writes the name of a part of a type, or its place where it has none.
pub(crate) fn write_part<W: fmt::Write>(
    f: &mut fmt::Formatter<W>,
    own: Option<&TypeNames<'_>>,
    part: usize,
) -> fmt::Result {
    if let Some(own) = own {
        for label in &own.labels {
            if label.number == part as i128 {
                let name = label.name;
                return write!(f, "{name}");
            }
        }
    }
    write!(f, "{part}")
}
