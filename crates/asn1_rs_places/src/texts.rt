//! Refusals as texts.
ghost use Rattle.std.specs.Prelude.{◌≡◌};

use crate::looks::Whole;
use crate::names::NamesSteps;
use crate::refused::{Found, Refused, Step};
use asn1_rs::{Class, Error, Tag};
use std::fmt;
use std::marker::PhantomData;

/// A tag in the notation of X.680 8.2, as `[1]`, `[APPLICATION 10]`, `[PRIVATE 2]`. A universal one has the name of its
/// type.
#[derive(Debug, Clone, Copy, PartialEq, Eq)]
pub struct Notation(pub Class, pub Tag);

impl fmt::Display for Notation {
    fn fmt<W: fmt::Write>(&self, f: &mut fmt::Formatter<W>) -> fmt::Result {
        let tag = self.1;
        let number = tag.0;
        match self.0 {
            Class::Universal => write!(f, "{tag}"),
            Class::Application => write!(f, "[APPLICATION {number}]"),
            Class::ContextSpecific => write!(f, "[{number}]"),
            Class::Private => write!(f, "[PRIVATE {number}]"),
        }
    }
}

impl fmt::Display for Found {
    fn fmt<W: fmt::Write>(&self, f: &mut fmt::Formatter<W>) -> fmt::Result {
        match *self {
            Found::Nothing => write!(f, "nothing"),
            Found::Octets => write!(f, "these octets"),
            Found::Header(class, tag) => {
                let notation = Notation(class, tag);
                write!(f, "{notation}")
            }
        }
    }
}

impl fmt::Display for Step {
    fn fmt<W: fmt::Write>(&self, f: &mut fmt::Formatter<W>) -> fmt::Result {
        match *self {
            Step::Field(place) => write!(f, "field {place}"),
            Step::FieldsFrom(place) => write!(f, "field {place} or one behind it"),
            Step::NoField => write!(f, "behind the last field"),
            Step::Item(place) => write!(f, "item {place}"),
            Step::Tagged => write!(f, "under its tag"),
            Step::Arm(place) => write!(f, "arm {place}"),
            Step::Behind => write!(f, "behind the value"),
        }
    }
}

/// A tag number that was found. It has the notation of the header at the place, where that has this number.
#[derive(Drop)]
struct Actual {
    tag: Tag,
    found: Found,
}

impl fmt::Display for Actual {
    fn fmt<W: fmt::Write>(&self, f: &mut fmt::Formatter<W>) -> fmt::Result {
        let number = self.tag.0;
        match self.found {
            Found::Header(class, found) if found == self.tag => {
                let notation = Notation(class, found);
                write!(f, "{notation}")
            }
            _ => write!(f, "{number}"),
        }
    }
}

/// Writes the last of these steps, by its name where `L` knows one.
fn write_last<W: fmt::Write, L: NamesSteps>(
    steps: &[Step],
    f: &mut fmt::Formatter<W>,
) -> fmt::Result {
    match (L::name_of(steps), steps) {
        (Some(name), _) => f.write_str(name),
        (None, [.., last]) => write!(f, "{last}"),
        (None, []) => Ok(()),
    }
}

/// Writes the steps, each with a comma behind it.
fn write_steps<W: fmt::Write, L: NamesSteps>(
    steps: &[Step],
    f: &mut fmt::Formatter<W>,
) -> fmt::Result {
    for place in 0..steps.len() {
        write_last::<W, L>(&steps[..place + 1], f)?;
        f.write_str(", ")?;
    }
    Ok(())
}

impl Refused {
    /// Whether the last step says why all is refused: it leads to nothing, or to octets that are too many.
    fn is_reason(&self, step: Step) -> bool {
        match step {
            Step::NoField | Step::Behind => true,
            Step::Item(_) | Step::Arm(_) => false,
            Step::Field(_) | Step::FieldsFrom(_) | Step::Tagged => {
                self.found == Found::Nothing && matches!(&self.error, Error::Incomplete(_))
            }
        }
    }

    /// Writes why all is refused, where the last step says so.
    fn write_reason<W: fmt::Write, L: NamesSteps>(
        &self,
        step: Step,
        f: &mut fmt::Formatter<W>,
    ) -> fmt::Result {
        let octet = self.octet;
        let found = self.found;
        write!(f, "at octet {octet}: ")?;
        match step {
            Step::NoField => write!(f, "no field takes {found}"),
            Step::Behind => f.write_str("trailing octets behind the value"),
            Step::Tagged => f.write_str("the value under the tag is missing"),
            _ => {
                write_last::<W, L>(self.path(), f)?;
                f.write_str(" is missing")
            }
        }
    }

    /// Writes the octet. An error that does not tell what was found has that behind it, where its class is not
    /// universal.
    fn write_octet<W: fmt::Write>(&self, f: &mut fmt::Formatter<W>) -> fmt::Result {
        let octet = self.octet;
        let found = self.found;
        if matches!(
            &self.error,
            Error::UnexpectedTag { .. } | Error::UnexpectedClass { .. }
        ) {
            return write!(f, "at octet {octet}: ");
        }
        match found {
            Found::Header(class, _) if class != Class::Universal => {
                write!(f, "at octet {octet} {found}: ")
            }
            _ => write!(f, "at octet {octet}: "),
        }
    }

    /// Writes the refusal of a tag number. One that was expected has no name, since its class is not known.
    fn write_tag<W: fmt::Write>(
        &self,
        expected: Option<Tag>,
        actual: Tag,
        f: &mut fmt::Formatter<W>,
    ) -> fmt::Result {
        let actual = Actual {
            tag: actual,
            found: self.found,
        };
        match expected {
            Some(Tag(number)) => write!(f, "expected tag number {number}, found {actual}"),
            None => write!(f, "unexpected tag {actual}"),
        }
    }

    /// Writes the refusal of a class, with the tag that was found where it has this class.
    fn write_class<W: fmt::Write>(
        &self,
        expected: Option<Class>,
        actual: Class,
        f: &mut fmt::Formatter<W>,
    ) -> fmt::Result {
        let found = match self.found {
            Found::Header(class, tag) if class == actual => Notation(class, tag),
            _ => return write!(f, "unexpected class {actual}"),
        };
        match expected {
            Some(expected) => write!(f, "expected class {expected}, found {found}"),
            None => write!(f, "unexpected tag {found}"),
        }
    }

    /// Writes the error.
    fn write_error<W: fmt::Write>(&self, f: &mut fmt::Formatter<W>) -> fmt::Result {
        match &self.error {
            Error::UnexpectedTag { expected, actual } => self.write_tag(*expected, *actual, f),
            Error::UnexpectedClass { expected, actual } => self.write_class(*expected, *actual, f),
            Error::Incomplete(needed) => write!(f, "{needed}"),
            error => write!(f, "{error}"),
        }
    }
}

impl Refused {
    /// Writes all, with the names that `L` knows. Of sixteen steps the last one may stand before steps that were cut.
    fn write_named<W: fmt::Write, L: NamesSteps>(&self, f: &mut fmt::Formatter<W>) -> fmt::Result {
        match self.path() {
            [outer @ .., last] if outer.len() < 15 && self.is_reason(*last) => {
                write_steps::<W, L>(outer, f)?;
                self.write_reason::<W, L>(*last, f)
            }
            steps => {
                write_steps::<W, L>(steps, f)?;
                self.write_octet(f)?;
                self.write_error(f)
            }
        }
    }

    /// The text with the names that the look `L` knows: `rooms, item 1, at octet 10: ..`.
    pub fn with_names<L>(&self) -> WithNames<'_, L>
        ensures { result.refused.now ≡ self.now }
    {
        WithNames {
            refused: self,
            look: PhantomData,
        }
    }
}

/// The path, the octet, and the error: `field 3, field 1, at octet 24: expected tag number 16, found [5]`.
///
/// A field that is not there is told with the path to its struct: `field 3, at octet 24: field 2 is missing`. So are
/// octets behind the last field: `field 3, at octet 24: no field takes [5]`. Tags have the notation of X.680 8.2.
impl fmt::Display for Refused {
    fn fmt<W: fmt::Write>(&self, f: &mut fmt::Formatter<W>) -> fmt::Result {
        self.write_named::<W, Whole>(f)
    }
}

/// A refusal that is told with the names that the look `L` knows.
#[derive_where(Clone, Copy)]
pub struct WithNames<'r, L> {
    refused: &'r Refused,
    look: PhantomData<L>,
}

impl<L: NamesSteps> fmt::Display for WithNames<'_, L> {
    fn fmt<W: fmt::Write>(&self, f: &mut fmt::Formatter<W>) -> fmt::Result {
        self.refused.write_named::<W, L>(f)
    }
}

impl std::error::Error for Refused {}
