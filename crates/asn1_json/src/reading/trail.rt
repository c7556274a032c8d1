//! Where and why JSON is refused.
ghost use Rattle.std.specs.Prelude.{◌≡◌};
ghost use Rattle.asn1_json.specs.declared.reading.trail.Fault.TheVariants as faults;

use std::alloc::{AllocError, AllocFailed, Global};
use std::fmt;

/// Why JSON denotes no value of a type.
#[derive(Debug, Clone, Copy, PartialEq, Eq)]
pub enum Reason {
    /// Nothing was refused.
    Nothing,
    /// The octets are no UTF-8.
    Utf8,
    /// The text is no JSON (RFC 8259), or it nests deeper than 128.
    Json,
    /// The table has no such type.
    MissingType,
    /// BOOLEAN is `true` or `false`.
    Boolean,
    /// NULL is `null`.
    Null,
    /// INTEGER is a number without fraction and exponent.
    Integer,
    /// ENUMERATED is a name of the type as a string, or a number as of INTEGER.
    Listed,
    /// BIT STRING is an object of `value` and `length`, and zeros fill the last octet.
    Bits,
    /// OCTET STRING is a string of hexadecimal digits, two for each octet.
    Octets,
    /// OBJECT IDENTIFIER is a string of arcs with points between them.
    Identifier,
    /// A character string is a string of characters that the type has.
    Text,
    /// A time is a string.
    Time,
    /// ANY is a string: one element in hexadecimal, with a strict header.
    Element,
    /// SEQUENCE and SET are objects.
    Object,
    /// SEQUENCE OF, SET OF and unknown components are arrays.
    Array,
    /// CHOICE is an object with one member.
    OneMember,
    /// The type has no part with this name.
    UnknownName,
    /// An object has the name twice.
    RepeatedName,
    /// A component is not there that may not be left out.
    MissingPart,
    /// The default of a component that is left out is no value of its type: the table is at fault.
    Default,
    /// The value is none of the type, or has no strict encoding: it is out of bounds, no number that is listed, no
    /// time, or nests too deep.
    Value,
}

impl Reason {
    /// The reason in words.
    pub fn words(self) -> &'static str {
        match self {
            Reason::Nothing => "nothing is refused",
            Reason::Utf8 => "the text is no UTF-8 from here on",
            Reason::Json => "the text is no JSON from here on, or it nests deeper than 128",
            Reason::MissingType => "the table has no such type",
            Reason::Boolean => "expected true or false",
            Reason::Null => "expected null",
            Reason::Integer => "expected a number without fraction and exponent",
            Reason::Listed => "expected a name that the type has, or a number",
            Reason::Bits => "expected an object of value, in hexadecimal, and length, in bits",
            Reason::Octets => "expected a string of hexadecimal digits, two for each octet",
            Reason::Identifier => "expected a string of arcs with points between them",
            Reason::Text => "expected a string of characters that the type has",
            Reason::Time => "expected a string",
            Reason::Element =>
                "expected a string of one element in hexadecimal, with a strict header",
            Reason::Object => "expected an object",
            Reason::Array => "expected an array",
            Reason::OneMember => "expected an object with one member",
            Reason::UnknownName => "the type has no part with this name",
            Reason::RepeatedName => "the name stands there more than once",
            Reason::MissingPart => "a component is missing",
            Reason::Default => "the default is no value of its type",
            Reason::Value => "the value is none of the type",
        }
    }
}

impl fmt::Display for Reason {
    fn fmt<W: fmt::Write>(&self, f: &mut fmt::Formatter<W>) -> fmt::Result {
        f.write_str(self.words())
    }
}

/// Why a value is not made.
#[derive(Debug, Clone, Copy, PartialEq, Eq)]
pub(super) enum Fault {
    /// Memory ran out.
    Memory,
    /// The JSON denotes no value of the type that has a strict encoding.
    Refused,
}

impl<T: Drop> From<AllocFailed<T>> for Fault {
    ghost from_gives = { λ _ e. e ≡ faults.Memory };

    fn from(_failed: AllocFailed<T>) -> Fault {
        Fault::Memory
    }
}

impl From<AllocError> for Fault {
    ghost from_gives = { λ _ e. e ≡ faults.Memory };

    fn from(_error: AllocError) -> Fault {
        Fault::Memory
    }
}

/// What leads on from an array or an object of JSON.
#[derive(Debug, Clone, Copy)]
pub(super) enum Step {
    /// The item of an array at a place, from 0.
    Item(usize),
    /// The value of the member of an object at a place, from 0.
    Member(usize),
    /// The name of that member.
    Name(usize),
}

/// What leads to the part of JSON that is looked at, and why it is refused.
#[derive(Debug, Drop)]
pub(super) struct Trail {
    /// The steps from the outermost value on.
    pub(super) steps: Vec<Step>,
    /// The place of the type that it is refused for.
    pub(super) of: usize,
    /// A component that is missing: the place of the row's type, and its place in the row.
    pub(super) missing: Option<(usize, usize)>,
    /// Why it is refused.
    pub(super) reason: Reason,
}

impl Trail {
    /// The outermost value is looked at.
    pub(super) fn new(alloc: Global, of: usize) -> Trail {
        Trail {
            steps: Vec::new(alloc),
            of,
            missing: None,
            reason: Reason::Nothing,
        }
    }

    /// What a step leads to is looked at.
    pub(super) fn enter(&mut self, step: Step) -> Result<(), AllocError> {
        self.steps.push(step)?;
        Ok(())
    }

    /// What the last step led to is done with.
    pub(super) fn leave(&mut self) {
        let _ = self.steps.pop();
    }

    /// The refusal of the part for a type.
    pub(super) fn refused(&mut self, of: usize, reason: Reason) -> Fault {
        self.of = of;
        self.reason = reason;
        Fault::Refused
    }

    /// The refusal of what a step leads to.
    pub(super) fn refused_at(&mut self, step: Step, of: usize, reason: Reason) -> Fault {
        match self.enter(step) {
            Ok(()) => self.refused(of, reason),
            Err(_) => Fault::Memory,
        }
    }

    /// The refusal of a row that lacks a component.
    pub(super) fn lacks(&mut self, of: usize, row: usize, place: usize) -> Fault {
        self.missing = Some((row, place));
        self.refused(of, Reason::MissingPart)
    }
}
