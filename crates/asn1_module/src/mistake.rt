//! What is wrong with a text, and where.
ghost use Rattle.std.specs.Prelude.{◌≡◌, ◌≤◌, ◌+◌, take, length, count_by};
ghost use Rattle.std.specs.List.{suffix_len};
ghost use Rattle.asn1_module.specs.Mistakes.{is_line_feed, is_in_line};

use asn1_schema::build::BuildError;
use std::alloc::{AllocError, AllocFailed};
use std::fmt;

/// A place in the texts.
#[derive(Debug, Clone, Copy, PartialEq, Eq)]
pub struct Place {
    /// Which of the texts, from 0.
    pub text: usize,
    /// How many octets of the text stand before it.
    pub octet: usize,
}

/// What is wrong.
#[derive(Debug, Clone, Copy, PartialEq, Eq)]
pub enum Wrong {
    /// No token of X.680 12 begins here.
    NoToken,
    /// This was expected.
    Expected(&'static str),
    /// Types nest deeper than 64, or lead through more than 64 types.
    Depth,
    /// `asn1_schema` has no kind for this.
    NoKind(&'static str),
    /// The number is not within 128 bits, or that of a tag not within 32.
    Number,
    /// The name is assigned twice in its module, or two modules have the name.
    Twice,
    /// Another component, arm, number or bit of the type has the name (X.680 19, 20, 22, 25, 27, 29).
    SameName,
    /// Another number or bit of the type, which has another name, is this one (X.680 19, 20, 22).
    SameNumber,
    /// An arm of a choice may not be left out (X.680 29).
    ArmLeftOut,
    /// No assignment and no import has the name.
    NotDefined,
    /// The name is imported from a module that is not given, or that does not define it.
    NotImported,
    /// The name stands for something else than a type.
    NotType,
    /// The type leads to itself, and no element stands between.
    LeadsToItself,
    /// The components are of a type that is not a sequence.
    NotSequence,
    /// The components are of a type that is not a set.
    NotSet,
    /// COMPONENTS OF puts more than 64 components into types for each one that is written.
    Repeated,
    /// The number of a listed or named number, or of a bit, is not known.
    NoNumber,
    /// An arm may have any tag but some, so that no unknown arm is told from it.
    OpenArm,
}

/// A mistake: what is wrong, and where.
#[derive(Debug, Clone, Copy, PartialEq, Eq)]
pub struct Mistake {
    /// What is wrong.
    pub wrong: Wrong,
    /// Where.
    pub place: Place,
}

/// Why texts are not read.
#[derive(Debug, Clone, Copy, PartialEq, Eq)]
pub enum ModuleError {
    /// Memory ran out.
    OutOfMemory,
    /// A text has a mistake.
    Mistake(Mistake),
}

impl Place {
    /// The refusal that this is wrong here.
    pub(crate) fn error(self, wrong: Wrong) -> ModuleError {
        ModuleError::Mistake(Mistake { wrong, place: self })
    }

    /// The refusal of a type that stands here and is not put into a table.
    pub(crate) fn not_built(self, error: BuildError) -> ModuleError {
        match error {
            BuildError::OutOfMemory => ModuleError::OutOfMemory,
            BuildError::OpenArm => self.error(Wrong::OpenArm),
            BuildError::MissingType => self.error(Wrong::NotDefined),
            BuildError::NotDeclared => self.error(Wrong::LeadsToItself),
            BuildError::NotDefined => self.error(Wrong::LeadsToItself),
        }
    }
}

/// The octets before a place.
fn before(text: &[u8], octet: usize) -> &[u8]
    ensures { result.now ≡ take octet text.now }
{
    match text.split_at_checked(octet) {
        None => text,
        Some((front, _)) => front,
    }
}

/// How many octets stand behind the last line feed.
fn last_line_len(octets: &[u8]) -> usize
    ensures len { result ≡ suffix_len is_in_line octets.now }
    ensures within { result ≤ length octets.now }
{
    let mut start = octets.len();
    while start > 0 && octets[start - 1] != b'\n' {
        start -= 1;
    }
    octets.len() - start
}

/// The line and the column of an octet, both from 1. A column counts octets.
pub fn position(text: &[u8], octet: usize) -> (usize, usize)
    ensures line { result.0 ≡ 1 + count_by is_line_feed (take octet text.now) }
    ensures column { result.1 ≡ 1 + suffix_len is_in_line (take octet text.now) }
{
    let front = before(text, octet);
    let lines = front.iter().filter(|octet| **octet == b'\n').count();
    (1 + lines, 1 + last_line_len(front))
}

impl fmt::Display for Wrong {
    fn fmt<W: fmt::Write>(&self, f: &mut fmt::Formatter<W>) -> fmt::Result {
        match self {
            Wrong::NoToken => write!(f, "no token of ASN.1 begins here"),
            Wrong::Expected(what) => write!(f, "expected {what}"),
            Wrong::Depth => write!(f, "nested deeper than 64"),
            Wrong::NoKind(what) => write!(f, "{what} has no kind yet"),
            Wrong::Number => write!(f, "the number is too large"),
            Wrong::Twice => write!(f, "assigned twice"),
            Wrong::SameName => write!(f, "another one before it has this name"),
            Wrong::SameNumber => write!(f, "another one before it has this number"),
            Wrong::ArmLeftOut => write!(f, "an arm is neither OPTIONAL nor DEFAULT"),
            Wrong::NotDefined => write!(f, "not defined"),
            Wrong::NotImported => write!(f, "not defined in the module that it is imported from"),
            Wrong::NotType => write!(f, "not a type"),
            Wrong::LeadsToItself => write!(f, "leads to itself, and no element stands between"),
            Wrong::NotSequence => write!(f, "not a sequence"),
            Wrong::NotSet => write!(f, "not a set"),
            Wrong::Repeated => write!(f, "the components repeat"),
            Wrong::NoNumber => write!(f, "the number is not known"),
            Wrong::OpenArm => write!(f, "an unknown arm is not told from the arms"),
        }
    }
}

impl fmt::Display for Mistake {
    fn fmt<W: fmt::Write>(&self, f: &mut fmt::Formatter<W>) -> fmt::Result {
        let wrong = self.wrong;
        let place = self.place;
        write!(f, "text {}, octet {}: {wrong}", place.text, place.octet)
    }
}

impl fmt::Display for ModuleError {
    fn fmt<W: fmt::Write>(&self, f: &mut fmt::Formatter<W>) -> fmt::Result {
        match self {
            ModuleError::OutOfMemory => write!(f, "out of memory"),
            ModuleError::Mistake(mistake) => write!(f, "{mistake}"),
        }
    }
}

impl std::error::Error for ModuleError {}

impl<T: Drop> From<AllocFailed<T>> for ModuleError {
    fn from(_failed: AllocFailed<T>) -> ModuleError {
        ModuleError::OutOfMemory
    }
}

impl From<AllocError> for ModuleError {
    fn from(_error: AllocError) -> ModuleError {
        ModuleError::OutOfMemory
    }
}
