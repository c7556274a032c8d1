//! A refusal with its place.
ghost use Rattle.std.specs.Prelude.{◌≡◌, ◌≢◌, [], ◌∷◌, ◌-◌, length};
ghost use Rattle.asn1_headers.specs.declared.error.DerConstraint.TheVariants as constraints;
ghost use Rattle.asn1_headers.specs.declared.error.Error.TheVariants as errors;
ghost use Rattle.asn1_rs_places.specs.Places.{HasPlaceOf, IsFound, IsAtFront, IsUnderStep};
ghost use Rattle.asn1_rs_places.specs.declared.refused.Step.TheVariants.{Behind};

use arrayvec::ArrayVec;
use asn1_headers::header::reading::header_by_ber;
use asn1_rs::{Class, DerConstraint, Error, Tag};
use std::fmt;

/// A step from a value to a part of it.
#[derive(Debug, Clone, Copy, PartialEq, Eq)]
pub enum Step {
    /// To a field of a struct, by its place in the row, counted from 0.
    Field(usize),
    /// To the fields of a struct from this place on, as one.
    FieldsFrom(usize),
    /// To octets behind the last field of a struct. No field takes them.
    NoField,
    /// To an item of a list, counted from 0.
    Item(usize),
    /// To the value under an explicit tag.
    Tagged,
    /// To the arm of a choice, by its place among the arms, counted from 0.
    Arm(usize),
    /// To octets behind a value that is to stand alone, as a message, or a value under an explicit tag.
    Behind,
}

/// Step 0.
impl Default for Step {
    fn default() -> Step {
        Step::Field(0)
    }
}

/// What stands at a place.
#[derive(Debug, Clone, Copy, PartialEq, Eq)]
pub enum Found {
    /// No octet.
    Nothing,
    /// Octets that begin with no header by BER.
    Octets,
    /// A header by BER, with this class and this tag number.
    Header(Class, Tag),
}

/// Where reading was refused, and with what.
#[derive(Debug, PartialEq, Eq, Drop)]
pub struct Refused {
    steps: ArrayVec<Step, 16>,
    /// How many octets of the input stand before what was refused.
    pub octet: usize,
    /// What was found there.
    pub found: Found,
    /// The refusal.
    pub error: Error,
}

/// What stands at the front of the octets.
fn found_at(octets: &[u8]) -> Found
    ensures { IsFound octets.now result }
{
    match octets {
        [] => Found::Nothing,
        _ => match header_by_ber(octets) {
            Ok((_, header)) => Found::Header(header.class(), header.tag()),
            Err(_) => Found::Octets,
        },
    }
}

impl Refused {
    /// A refusal at the front of these octets, which end so many octets behind the begin of the input.
    pub(crate) fn at_front(octets: &[u8], end: usize, error: Error) -> Refused
        ensures steps { result.steps.items ≡ [] }
        ensures front { IsAtFront end octets.now result }
        ensures error { result.error ≡ error }
    {
        Refused {
            steps: ArrayVec::new(),
            octet: end.saturating_sub(octets.len()),
            found: found_at(octets),
            error,
        }
    }

    /// The refusal of these octets, since they stand behind a value that is to stand alone.
    pub(crate) fn behind(octets: &[u8], end: usize) -> Refused
        ensures steps { result.steps.items ≡ Behind ∷ [] }
        ensures front { IsAtFront end octets.now result }
        ensures error { result.error ≡ errors.DerConstraintFailed constraints.TrailingOctets }
    {
        let error = Error::DerConstraintFailed(DerConstraint::TrailingOctets);
        Refused::at_front(octets, end, error).under(Step::Behind)
    }

    /// The same refusal, told of the value that holds the part to which this step leads.
    pub(crate) fn under(self, step: Step) -> Refused
        ensures { IsUnderStep step self result }
    {
        let mut steps = self.steps;
        steps.truncate(15);
        steps.insert(0, step);
        Refused {
            steps,
            octet: self.octet,
            found: self.found,
            error: self.error,
        }
    }

    /// This error, at the same place.
    pub(crate) fn with_error(self, error: Error) -> Refused
        ensures place { HasPlaceOf self result }
        ensures error { result.error ≡ error }
    {
        Refused {
            steps: self.steps,
            octet: self.octet,
            found: self.found,
            error,
        }
    }

    /// The steps from the value that was read to the part that was refused, the outermost first. Of more than 16 steps
    /// the outermost 16 are told.
    pub fn path(&self) -> &[Step]
        ensures { result.now ≡ self.now.steps.items }
    {
        self.steps.as_slice()
    }
}
