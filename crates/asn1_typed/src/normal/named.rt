//! Which rows of a table are printed by a name, and which are those of a named type under another tag.

use asn1_module::modules::ModuleType;
use asn1_schema::build::Schema;
use asn1_schema::names::{PartName, TypeNames};
use asn1_schema::schema::{Field, Kind, Node, Presence, Tags, TextKind, TimeKind, TypeTag};
use std::alloc::{AllocError, Global};
use std::cmp::Ordering;

/// So many bounds stand round a type at most; `asn1_module` puts fewer there.
const MOST_BOUNDS: usize = 130;

/// A type that is printed at its row, and a number that it has in common with all types of the same kind.
#[derive(Debug, Clone, Copy, PartialEq, Eq, PartialOrd, Ord)]
struct Keyed {
    /// The number.
    key: u64,
    /// Whether it has another tag than its kind.
    is_tagged: bool,
    /// Its place among the types of modules.
    at: usize,
}

/// The names of the rows of a table.
#[derive(Debug, Drop)]
pub(crate) struct RowNames<'s, 't> {
    /// The rows.
    pub nodes: &'s [Node],
    names: &'s [TypeNames<'t>],
    types: &'s [ModuleType<'t>],
    owners: Vec<Option<usize>>,
    keys: Vec<Keyed>,
}

/// The number of the universal tag of a character string (X.680 table 8).
fn text_number(kind: TextKind) -> u32 {
    match kind {
        TextKind::Utf8 => 12,
        TextKind::Numeric => 18,
        TextKind::Printable => 19,
        TextKind::Teletex => 20,
        TextKind::Videotex => 21,
        TextKind::Ia5 => 22,
        TextKind::Graphic => 25,
        TextKind::Visible => 26,
        TextKind::General => 27,
        TextKind::Universal => 28,
        TextKind::Bmp => 30,
        TextKind::Descriptor => 7,
    }
}

/// The number of the universal tag of a kind (X.680 8.4), if it has one.
fn universal_number(kind: &Kind) -> Option<u32> {
    match kind {
        Kind::Boolean => Some(1),
        Kind::Integer => Some(2),
        Kind::Bits(_) => Some(3),
        Kind::Octets => Some(4),
        Kind::Null => Some(5),
        Kind::Identifier(false) => Some(6),
        Kind::Identifier(true) => Some(13),
        Kind::Enumerated(_, _) => Some(10),
        Kind::Text(text) => Some(text_number(*text)),
        Kind::Time(TimeKind::Utc) => Some(23),
        Kind::Time(TimeKind::Generalized) => Some(24),
        Kind::Sequence(_, _) => Some(16),
        Kind::SequenceOf(_) => Some(16),
        Kind::Set(_, _) => Some(17),
        Kind::SetOf(_) => Some(17),
        _ => None,
    }
}

/// The first tag of a type, if it has one.
pub(crate) fn first_tag(node: &Node) -> Option<TypeTag> {
    match &node.tags {
        Tags::Among(tags) => tags.first().copied(),
        Tags::AllBut(_) => None,
    }
}

/// The tag that a type has in the place of that of its kind, if it has one.
pub(crate) fn other_tag(node: &Node) -> Option<TypeTag> {
    let number = universal_number(&node.kind)?;
    match first_tag(node) {
        Some(tag) if tag.class != 0 || tag.number != number => Some(tag),
        _ => None,
    }
}

/// Whether a kind is that of a list.
pub(crate) fn is_list(kind: &Kind) -> bool {
    matches!(kind, Kind::SequenceOf(_) | Kind::SetOf(_))
}

/// Whether a kind has fields or members.
fn is_constructed(kind: &Kind) -> bool {
    is_list(kind) || matches!(kind, Kind::Sequence(_, _) | Kind::Set(_, _))
}

/// Whether two fields may be left out alike.
fn are_left_out_alike(one: &Presence, other: &Presence) -> bool {
    match (one, other) {
        (Presence::Required, Presence::Required) => true,
        (Presence::Optional, Presence::Optional) => true,
        (Presence::Default(one), Presence::Default(other)) => one.as_slice() == other.as_slice(),
        _ => false,
    }
}

/// Whether fields are the same.
fn are_same_fields(one: &[Field], other: &[Field]) -> bool {
    if one.len() != other.len() {
        return false;
    }
    for (field, second) in one.iter().zip(other.iter()) {
        if field.of != second.of || !are_left_out_alike(&field.presence, &second.presence) {
            return false;
        }
    }
    true
}

/// Whether two kinds lead to the same rows. Names, and the numbers that have them, are asked for apart.
fn are_same_kinds(one: &Kind, other: &Kind) -> bool {
    match (one, other) {
        (Kind::Integer, Kind::Integer) => true,
        (Kind::Bits(one), Kind::Bits(other)) => *one == *other,
        (Kind::Enumerated(_, one), Kind::Enumerated(_, other)) => *one == *other,
        (Kind::Sequence(one, end), Kind::Sequence(other, second)) => {
            end.is_some() == second.is_some() && are_same_fields(one, other)
        }
        (Kind::Set(one, end), Kind::Set(other, second)) => {
            end.is_some() == second.is_some() && are_same_fields(one, other)
        }
        (Kind::SequenceOf(one), Kind::SequenceOf(other)) => *one == *other,
        (Kind::SetOf(one), Kind::SetOf(other)) => *one == *other,
        (Kind::Explicit(one), Kind::Explicit(other)) => *one == *other,
        _ => false,
    }
}

/// Whether names of parts are the same, and their numbers.
fn are_same_labels(one: &[PartName<'_>], other: &[PartName<'_>]) -> bool {
    if one.len() != other.len() {
        return false;
    }
    for (label, second) in one.iter().zip(other.iter()) {
        if label.number != second.number || label.name != second.name {
            return false;
        }
    }
    true
}

/// A list, or an empty one where there is none.
fn listed<T>(list: Option<&[T]>) -> &[T] {
    match list {
        None => &[],
        Some(list) => list,
    }
}

/// A number of another one and what follows it.
fn mixed(key: u64, part: u64) -> u64 {
    key.wrapping_mul(0x0100_0000_01b3).wrapping_add(part)
}

/// A number of another one and the rows that fields lead to.
fn mixed_fields(key: u64, fields: &[Field]) -> u64 {
    let mut key = mixed(key, fields.len() as u64);
    for field in fields {
        key = mixed(key, field.of as u64);
    }
    key
}

/// A number of another one and a name.
fn mixed_name(key: u64, name: &str) -> u64 {
    let mut key = mixed(key, name.len() as u64);
    for octet in name.as_bytes() {
        key = mixed(key, u64::from(*octet));
    }
    key
}

/// A number of another one and the names of parts.
fn mixed_labels(key: u64, labels: &[PartName<'_>]) -> u64 {
    let mut key = key;
    for label in labels {
        key = mixed_name(key, label.name);
    }
    key
}

impl<'s, 't: 's> RowNames<'s, 't> {
    /// The names of the rows of a table by the types of modules.
    pub(crate) fn new(
        alloc: Global,
        schema: &'s Schema<'t>,
        types: &'s [ModuleType<'t>],
    ) -> Result<RowNames<'s, 't>, AllocError> {
        let mut owners = Vec::new(alloc);
        for _ in &schema.nodes {
            owners.push(None)?;
        }
        let mut rows = RowNames {
            nodes: &schema.nodes,
            names: &schema.names,
            types,
            owners,
            keys: Vec::new(alloc),
        };
        rows.own(true);
        rows.own(false);
        rows.key_all()?;
        Ok(rows)
    }

    /// Gives each row that has none yet the first type that is at it; or the first one that has the name of the row.
    fn own(&mut self, by_name: bool) {
        for (at, named) in self.types.iter().enumerate() {
            let is_owner = !by_name || self.name(named.of) == named.name;
            if let Some(owner) = self.owners.get_mut(named.of) {
                if is_owner && owner.is_none() {
                    *owner = Some(at);
                }
            }
        }
    }

    /// Sorts the types that are printed at their rows.
    fn key_all(&mut self) -> Result<(), AllocError> {
        for (at, named) in self.types.iter().enumerate() {
            if self.owner(named.of) == Some(at) {
                let key = self.key(named.of);
                let is_tagged = self.is_tagged(named.of);
                self.keys.push(Keyed { key, is_tagged, at })?;
            }
        }
        self.keys.sort_unstable();
        Ok(())
    }

    /// The name that a row has.
    fn name(&self, of: usize) -> &'t str {
        match self.names.get(of) {
            None => "",
            Some(names) => names.name,
        }
    }

    /// The names of the parts of a row.
    pub(crate) fn labels(&self, of: usize) -> &'s [PartName<'t>] {
        listed(self.names.get(of).map(|names| names.labels.as_slice()))
    }

    /// The type at a place among those of modules.
    pub(crate) fn type_at(&self, at: usize) -> Option<ModuleType<'t>> {
        self.types.get(at).copied()
    }

    /// The type that is printed at a row, as its place among those of modules.
    pub(crate) fn owner(&self, of: usize) -> Option<usize> {
        match self.owners.get(of) {
            None => None,
            Some(owner) => *owner,
        }
    }

    /// The row behind the bounds of another one, and how many bounds there are.
    fn bounded(&self, of: usize) -> (usize, u64) {
        let (mut inner, mut count) = (of, 0u64);
        for _ in 0..MOST_BOUNDS {
            match self.nodes.get(inner).map(|node| &node.kind) {
                Some(Kind::Within(next, _, _)) => {
                    inner = *next;
                    count = count.saturating_add(1);
                }
                _ => break,
            }
        }
        (inner, count)
    }

    /// The row behind the bounds of another one.
    pub(crate) fn behind_bounds(&self, of: usize) -> usize {
        self.bounded(of).0
    }

    /// Whether a row has another tag than its kind.
    fn is_tagged(&self, of: usize) -> bool {
        match self.nodes.get(self.behind_bounds(of)) {
            None => false,
            Some(node) => other_tag(node).is_some(),
        }
    }

    /// Whether a kind leads to a row that is printed in line.
    fn leads_in_line(&self, kind: &Kind) -> bool {
        match kind {
            Kind::Sequence(fields, _) => self.lead_in_line(fields),
            Kind::Set(fields, _) => self.lead_in_line(fields),
            Kind::SequenceOf(of) => self.owner(*of).is_none(),
            Kind::SetOf(of) => self.owner(*of).is_none(),
            Kind::Explicit(of) => self.owner(*of).is_none(),
            _ => false,
        }
    }

    /// Whether one of fields leads to a row that is printed in line.
    fn lead_in_line(&self, fields: &[Field]) -> bool {
        for field in fields {
            if self.owner(field.of).is_none() {
                return true;
            }
        }
        false
    }

    /// Whether a row may be that of a named type under another tag: it has parts, and is tagged or leads to rows that
    /// are printed in line.
    fn may_be_copied(&self, of: usize) -> bool {
        let base = self.behind_bounds(of);
        let Some(node) = self.nodes.get(base) else {
            return false;
        };
        let has_parts = is_constructed(&node.kind) || !self.labels(base).is_empty();
        self.leads_in_line(&node.kind) || has_parts && other_tag(node).is_some()
    }

    /// A number that a row has in common with all rows of the same kind.
    fn key(&self, of: usize) -> u64 {
        let (base, count) = self.bounded(of);
        let key = match self.nodes.get(base).map(|node| &node.kind) {
            Some(Kind::Sequence(fields, _)) => mixed_fields(count, fields),
            Some(Kind::Set(fields, _)) => mixed_fields(count, fields),
            Some(Kind::SequenceOf(member)) => mixed(count, *member as u64),
            Some(Kind::SetOf(member)) => mixed(count, *member as u64),
            Some(Kind::Explicit(inner)) => mixed(count, *inner as u64),
            _ => count,
        };
        mixed_labels(key, self.labels(base))
    }

    /// Whether two rows are the same but for their tags: they have the same bounds, lead to the same rows, and have
    /// the same names.
    fn are_same(&self, one: usize, other: usize) -> bool {
        let (mut first, mut second) = (one, other);
        for _ in 0..MOST_BOUNDS {
            let (Some(node), Some(other)) = (self.nodes.get(first), self.nodes.get(second)) else {
                return false;
            };
            match (&node.kind, &other.kind) {
                (Kind::Within(inner, least, most), Kind::Within(next, lower, upper)) => {
                    if *least != *lower || *most != *upper {
                        return false;
                    }
                    first = *inner;
                    second = *next;
                }
                (one, other) => {
                    return are_same_kinds(one, other)
                        && are_same_labels(self.labels(first), self.labels(second));
                }
            }
        }
        false
    }

    /// The place of the first type that has a key, or of those behind it.
    fn first_of(&self, key: u64) -> usize {
        let found = self.keys.binary_search_by(|keyed| match keyed.key.cmp(&key) {
            Ordering::Less => Ordering::Less,
            _ => Ordering::Greater,
        });
        match found {
            Ok(place) => place,
            Err(place) => place,
        }
    }

    /// The type of which a row has the kind under another tag, as its place among those of modules.
    pub(crate) fn copied(&self, of: usize) -> Option<usize> {
        if !self.may_be_copied(of) {
            return None;
        }
        let key = self.key(of);
        for keyed in self.keys.iter().skip(self.first_of(key)) {
            if keyed.key != key {
                break;
            }
            let named = self.types.get(keyed.at)?;
            if self.are_same(named.of, of) {
                return if named.of == of { None } else { Some(keyed.at) };
            }
        }
        None
    }
}
