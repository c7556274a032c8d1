//! What a table, and the names beside it, say of how values are shown.
ghost use Rattle.std.specs.Prelude.{ℤ, ◌≡◌, MatchOption, Some, None, length, slice_get, option_and_then, nat_lt, true, ◌<◌, ◌^◌};
ghost use Rattle.std.specs.Ordering.{int_eq};
ghost use Rattle.asn1_schema.specs.Cursor.{IsNumber};
ghost use Rattle.asn1_json.specs.DenotedLeaves.{number_named};
ghost use Rattle.asn1_json.specs.Leaves.{name_of};
ghost use Rattle.asn1_json.specs.Types.{inner_type, kind_at, innermost, resolved, labels_at, fields_of, arms_of};
ghost use Rattle.asn1_json.specs.Types.{is_any};
ghost use Rattle.asn1_json.specs.Tokens.{given_types, type_of_arm, type_of_field};
ghost use Rattle.asn1_json.specs.Tokens.{count_of_fields, type_of_unknown, type_of_members};

use asn1_schema::names::{PartName, TypeNames};
use asn1_schema::schema::{Field, Kind, Node};

/// A table, and the names beside it.
#[derive(Debug, Clone, Copy)]
pub struct Types<'s, 'n> {
    /// The types.
    pub table: &'s [Node],
    /// The names of each type, at the same place.
    pub names: &'s [TypeNames<'n>],
}

/// The kind of the type at a place, if there is one.
fn kind_at<'s>(table: &'s [Node], place: usize) -> Option<&'s Kind>
    ensures { MatchOption result (kind_at table.now (Some place) ≡ None)
        (λ kind. kind_at table.now (Some place) ≡ Some kind.now) }
{
    match table.get(place) {
        Some(node) => Some(&node.kind),
        None => None,
    }
}

/// The type that the explicit tag or the bounds at a place are on.
fn inner_type(table: &[Node], place: usize) -> Option<usize>
    ensures { result ≡ option_and_then inner_type (kind_at table.now (Some place)) }
{
    match kind_at(table, place) {
        Some(Kind::Explicit(of)) => Some(*of),
        Some(Kind::Within(of, _, _)) => Some(*of),
        _ => None,
    }
}

/// The type that all tags and bounds at a place are on.
fn innermost(table: &[Node], of: usize) -> usize
    ensures { result ≡ innermost table.now (length table.now) of }
{
    let mut place = of;
    for _ in 0..table.len() {
        match inner_type(table, place) {
            Some(next) => place = next,
            None => return place,
        }
    }
    place
}

/// Whether a name stands for a number. It stands for none that 16 octets do not hold.
fn is_of(label: &PartName<'_>, number: Option<i128>) -> bool
    ensures { (n : ℤ) → IsNumber n number → result ≡ int_eq label.now.number n }
{
    let own = label.number;
    match number {
        Some(number) => own == number,
        None => false,
    }
}

/// The first name that stands for a number, or an empty one.
fn name_of<'l>(labels: &'l [PartName<'_>], number: Option<i128>) -> &'l str
    ensures { (n : ℤ) → IsNumber n number → result.now ≡ name_of labels.now n }
{
    for label in labels {
        if is_of(label, number) {
            return label.name;
        }
    }
    ""
}

/// The number that the first part with a name stands for.
fn number_named(labels: &[PartName<'_>], name: &str) -> Option<i128>
    ensures { result ≡ number_named labels.now name.now }
{
    for label in labels {
        if label.name == name {
            return Some(label.number);
        }
    }
    None
}

impl<'s, 'n> Types<'s, 'n> {
    /// The kind of the type at a place, if one is given.
    pub fn kind(self, at: Option<usize>) -> Option<&'s Kind>
        ensures { MatchOption result (kind_at self.entry.table.now at ≡ None)
            (λ kind. kind_at self.entry.table.now at ≡ Some kind.now) }
    {
        kind_at(self.table, at?)
    }

    /// The type that all tags and bounds are on.
    pub fn resolved(self, of: Option<usize>) -> Option<usize>
        ensures { result ≡ resolved self.entry.table.now of }
    {
        match of {
            Some(place) => Some(innermost(self.table, place)),
            None => None,
        }
    }

    /// The first name that stands for a number among the parts of a type, or an empty one. `None` is a number that 16
    /// octets do not hold.
    pub fn name(self, at: Option<usize>, number: Option<i128>) -> &'s str
        ensures { (n : ℤ) → IsNumber n number →
            result.now ≡ name_of (labels_at self.entry.names.now at) n }
    {
        let Some(place) = at else {
            return "";
        };
        let Some(names) = self.names.get(place) else {
            return "";
        };
        name_of(names.labels.as_slice(), number)
    }

    /// The number that the first part of a type with a name stands for.
    pub(crate) fn number(self, at: usize, name: &str) -> Option<i128>
        ensures { result ≡ number_named (labels_at self.entry.names.now (Some at)) name.now }
    {
        match self.names.get(at) {
            Some(names) => number_named(names.labels.as_slice(), name),
            None => None,
        }
    }

    /// The type of the members of a list; none where it is no list.
    pub fn of_members(self, at: Option<usize>) -> Option<usize>
        ensures { result ≡ type_of_members (given_types self.entry) at }
    {
        match self.kind(at) {
            Some(Kind::SequenceOf(of)) => Some(*of),
            Some(Kind::SetOf(of)) => Some(*of),
            _ => None,
        }
    }

    /// The fields of a row.
    pub(crate) fn fields(self, at: Option<usize>) -> &'s [Field]
        ensures { result.now ≡ fields_of (kind_at self.entry.table.now at) }
    {
        match self.kind(at) {
            Some(Kind::Sequence(fields, _)) => fields.as_slice(),
            Some(Kind::Set(fields, _)) => fields.as_slice(),
            _ => &[],
        }
    }

    /// Whether a row has a field at a place.
    pub fn has_field(self, at: Option<usize>, place: usize) -> bool
        ensures is { result ≡ nat_lt place (count_of_fields (given_types self.entry) at) }
        ensures few { result ≡ true → place < 2 ^ 63 }
    {
        place < self.fields(at).len()
    }

    /// The type of a field.
    pub fn of_field(self, at: Option<usize>, place: usize) -> Option<usize>
        ensures { result ≡ type_of_field (given_types self.entry) at place }
    {
        match self.fields(at).get(place) {
            Some(field) => Some(field.of),
            None => None,
        }
    }

    /// The type of the unknown elements behind the fields of a row.
    pub fn of_unknown(self, at: Option<usize>) -> Option<usize>
        ensures { result ≡ type_of_unknown (given_types self.entry) at }
    {
        match self.kind(at) {
            Some(Kind::Sequence(_, unknown)) => *unknown,
            Some(Kind::Set(_, unknown)) => *unknown,
            _ => None,
        }
    }

    /// The arms of a choice.
    pub(crate) fn arms(self, at: Option<usize>) -> &'s [usize]
        ensures { result.now ≡ arms_of (kind_at self.entry.table.now at) }
    {
        match self.kind(at) {
            Some(Kind::Choice(arms)) => arms.as_slice(),
            _ => &[],
        }
    }

    /// The type of an arm.
    pub fn of_arm(self, at: Option<usize>, arm: usize) -> Option<usize>
        ensures { result ≡ type_of_arm (given_types self.entry) at arm }
    {
        match self.arms(at).get(arm) {
            Some(of) => Some(*of),
            None => None,
        }
    }

    /// Whether a type is any one element.
    pub fn is_any(self, at: Option<usize>) -> bool
        ensures { result ≡ is_any (kind_at self.entry.table.now at) }
    {
        matches!(self.kind(at), Some(Kind::Any))
    }
}
