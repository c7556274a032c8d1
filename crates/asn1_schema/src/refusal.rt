//! Where and why octets are refused. It stands beside the result of a call, so that results stay small.
ghost use Rattle.std.specs.Prelude.{◌<◌, ◌≤◌, ◌+◌, ◌-◌, ◌^◌, ◌≡◌, ◌⊎◌, List, length, Some, None};
ghost use Rattle.asn1_schema.specs.declared.fault.Fault.TheVariants as faults;
ghost use Rattle.asn1_schema.specs.declared.refusal.Reason.TheVariants as reasons;
ghost use Rattle.asn1_schema.specs.declared.schema.Field.{Field};
ghost use Rattle.asn1_schema.specs.declared.schema.Node.{Node};
ghost use Rattle.asn1_schema.specs.Refusals.{IsTold, HasFieldAt};

use crate::fault::Fault;
use crate::names::{TypeNames, write_part, write_type};
use std::fmt;

/// Why octets are refused.
#[derive(Debug, Clone, Copy, PartialEq, Eq, thiserror::Error)]
pub enum Reason {
    /// Nothing was refused.
    #[error("nothing is refused")]
    Nothing,
    /// Elements nest deeper than the caller allows.
    #[error("elements nest too deep")]
    Depth,
    /// The table has no such type.
    #[error("the table has no such type")]
    MissingType,
    /// No element begins there (X.690 8.1): it is cut, or its header is none by the rules.
    #[error("no element begins here, or it is cut")]
    Element,
    /// The element has a tag that the type does not have.
    #[error("the tag is not one of the type")]
    Tag,
    /// The element is primitive where the type asks for a constructed one.
    #[error("the element is primitive, and the type is constructed")]
    Form,
    /// The contents octets have no value of the type by the rules.
    #[error("the contents octets have no value of the type")]
    Contents,
    /// The number or the size is out of bounds (X.680 51.4, 51.5).
    #[error("the number or the size is out of bounds")]
    Bounds,
    /// A field is not there that may not be left out.
    #[error("a component is missing")]
    MissingField,
    /// The elements of a set do not ascend by their tags (X.690 10.3).
    #[error("the elements of a set do not ascend by their tags")]
    Order,
    /// A field of a set is there more than once.
    #[error("a component stands there more than once")]
    Repeated,
    /// The default of a field that is left out is no value of its type: the table is at fault.
    #[error("the default is no value of its type")]
    Default,
    /// Octets follow where none may.
    #[error("octets follow where none may")]
    TrailingOctets,
}

/// Where and why octets are refused.
#[derive(Debug, Clone, Copy, PartialEq, Eq)]
pub struct Refusal {
    /// The octet of the input, counted from 0. It may be the end of the input.
    pub octet: usize,
    /// The place of the type in the table.
    pub of: usize,
    /// The innermost sequence or set, by its place in the table, where a field is told.
    pub row: usize,
    /// The field, by its place in that sequence or set.
    pub field: Option<usize>,
    /// Why.
    pub reason: Reason,
}

/// A refusal as one line, by the names of a table where it has them.
#[derive(Debug, Clone, Copy)]
pub struct RefusalByName<'s, 'n> {
    /// The refusal.
    pub refusal: Refusal,
    /// The names of the types, each at the place of its type. There may be none.
    pub names: &'s [TypeNames<'n>],
}

impl fmt::Display for RefusalByName<'_, '_> {
    fn fmt<W: fmt::Write>(&self, f: &mut fmt::Formatter<W>) -> fmt::Result {
        let Refusal {
            octet,
            of,
            row,
            field,
            reason,
        } = self.refusal;
        write!(f, "octet {octet}, ")?;
        if let Some(field) = field {
            write_type(f, self.names, row)?;
            write!(f, ".")?;
            write_part(f, self.names.get(row), field)?;
        } else {
            write_type(f, self.names, of)?;
        }
        write!(f, ": {reason}")
    }
}

impl Refusal {
    /// The refusal as one line by these names: the octet, the type, the field of it, and the reason.
    pub fn by_name<'s, 'n>(self, names: &'s [TypeNames<'n>]) -> RefusalByName<'s, 'n> {
        RefusalByName {
            refusal: self,
            names,
        }
    }

    /// Nothing is refused yet.
    pub fn none() -> Refusal
        ensures { result.octet ≡ 0 }
    {
        Refusal {
            octet: 0,
            of: 0,
            row: 0,
            field: None,
            reason: Reason::Nothing,
        }
    }

    /// Tells a refusal. Who reads fields tells the field.
    pub(crate) fn tell(&mut self, octet: usize, of: usize, reason: Reason)
        ensures octet { self.new.octet ≡ octet }
        ensures of { self.new.of ≡ of }
        ensures reason { self.new.reason ≡ reason }
        ensures field { self.new.field ≡ None }
    {
        self.octet = octet;
        self.of = of;
        self.row = of;
        self.field = None;
        self.reason = reason;
    }

    /// Tells the field of a row, if none is told.
    pub(crate) fn tell_field(&mut self, row: usize, place: usize)
        ensures { (table : List Node) (field : Field) → HasFieldAt table row place field →
            IsTold table (Some field) self.old → IsTold table None self.new }
    {
        if self.field.is_none() {
            self.row = row;
            self.field = Some(place);
        }
    }

    /// Ends what is told to a caller whose table has so many types, and whose input has so many octets.
    ///
    /// Where elements nest too deep this is why. Else a place that the table does not have is why.
    pub(crate) fn settle(&mut self, fault: Fault, types: usize, len: usize)
        ensures within { self.new.octet ≤ len }
        ensures deep { fault ≡ faults.TooDeep → self.new.reason ≡ reasons.Depth }
        ensures of { fault ≡ faults.Refused →
            (self.new.of < types) ⊎ (self.new.reason ≡ reasons.MissingType) }
        ensures told { (table : List Node) → types ≡ length table → fault ≡ faults.Refused →
            IsTold table None self.old → IsTold table None self.new }
    {
        self.keep_within(len);
        if matches!(fault, Fault::TooDeep) {
            self.reason = Reason::Depth;
        } else if self.of >= types {
            self.reason = Reason::MissingType;
        }
    }

    /// Keeps the place within an input of so many octets.
    pub(crate) fn keep_within(&mut self, len: usize)
        ensures within { self.new.octet ≤ len }
        ensures same { self.old.octet ≤ len → self.new ≡ self.old }
        ensures told { (table : List Node) → IsTold table None self.old → IsTold table None self.new }
    {
        if self.octet > len {
            self.octet = len;
        }
    }
}

/// The place behind so many of some octets of which others are left.
pub(crate) fn further(at: usize, all: usize, left: usize) -> usize
    ensures { left ≤ all → at + all < 2 ^ 64 → result ≡ at + (all - left) }
{
    at.saturating_add(all.saturating_sub(left))
}
