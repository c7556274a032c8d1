//! A choice of values under tags and of a struct, by both rules.
ghost use Rattle.asn1_rs.specs.Prelude.{choice_of, ChoiceGives, ChoiceReads, ReadsByBer, ReadsByDer, refl, seen};
ghost use Rattle.asn1_rs.specs.Prelude.{WritesStrict};
ghost use Rattle.asn1_rs.specs.declared.choices.arms.Or.TheVariants as arm;
ghost use Rattle.asn1_rs_messages.specs.declared.source.Source.TheVariants as sources;

use crate::measurement::Measurement;
use asn1_rs::author::{
    AlwaysDerBy, Arms, ChecksChoice, ChoiceKind, ChoiceReader, HasKind, HasReader, LawfulChoice,
    Never, OfArms, Or, OrTagged, OrUniversal, ReadsArms, ReadsChoice, ReadsChoiceByBer, TakesArms,
    UsesArm, check_element, choice_by_der, choice_of_element,
};
use asn1_rs::laws::{AlwaysDer, Grammar};
use asn1_rs::{
    Any, DynTagged, Error, ParseResult, SerializeResult, Tag, TaggedExplicit, TaggedImplicit,
    ToDer, read_ber, read_der, strict_vec,
};
use std::alloc::Global;

/// Where a number comes from: a place, a person's name, or a measurement.
///
///     Source ::= CHOICE {
///         place     [0] EXPLICIT INTEGER,
///         name      [1] IMPLICIT UTF8String,
///         measured  Measurement }
#[derive(Debug, PartialEq, Eq, Drop)]
pub enum Source {
    Place(Place),
    Name(Name),
    Measured(Measurement),
}

/// A place, under its tag.
pub type Place = TaggedExplicit<u32, Error, 0>;

/// A name, under its tag.
pub type Name = TaggedImplicit<String, Error, 1>;

/// Its arms.
pub type SourceArms = OrTagged<Place, OrTagged<Name, OrUniversal<Measurement, Never>>>;

impl HasKind for Source {
    type Kind = ChoiceKind;
}

impl HasReader for Source {
    type Reader = ChoiceReader;
}

impl DynTagged for Source {
    ghost dyn_tag = { λ s. elim s [
      | sources.Place x ↦ record { 0 = 0 }
      | sources.Name x ↦ record { 0 = 1 }
      | sources.Measured x ↦ record { 0 = 16 }
    ] };

    fn tag(&self) -> Tag {
        match self {
            Source::Place(place) => place.tag(),
            Source::Name(name) => name.tag(),
            Source::Measured(_) => Tag::Sequence,
        }
    }
}

impl LawfulChoice for Source {
    ghost laws = { choice_of (λ s. elim s [
      | sources.Place x ↦ arm.This x
      | sources.Name x ↦ arm.Other (arm.This x)
      | sources.Measured x ↦ arm.Other (arm.Other (arm.This x))
    ])
        ⟦<SourceArms as Arms>⟧.arm_laws refl };

    fn with_arm<U: UsesArm>(&self, using: U) -> U::Answer {
        match self {
            Source::Place(place) => using.use_arm(place),
            Source::Name(name) => using.use_arm(name),
            Source::Measured(measured) => using.use_arm(measured),
        }
    }
}

impl OfArms for Source {
    type Arms = SourceArms;

    ghost as_arms = { λ s. elim s [
      | sources.Place x ↦ arm.This x
      | sources.Name x ↦ arm.Other (arm.This x)
      | sources.Measured x ↦ arm.Other (arm.Other (arm.This x))
    ] };

    fn of_arms(arms: SourceArms) -> Source {
        match arms {
            Or::This(place) => Source::Place(place),
            Or::Other(Or::This(name)) => Source::Name(name),
            Or::Other(Or::Other(Or::This(measured))) => Source::Measured(measured),
            Or::Other(Or::Other(Or::Other(none))) => match none {},
        }
    }
}

impl<'a> ReadsChoice<'a> for Source {
    ghost choice_gives = { ChoiceReads ⟦<Source as LawfulChoice>⟧.laws.arms.grammar.tags
        ⟦<Source as LawfulChoice>⟧.laws.as_arms ⟦<SourceArms as ReadsArms<'a>>⟧.arms_give };

    fn read_choice(alloc: Global, octets: &'a [u8]) -> ParseResult<'a, Source, Error> {
        choice_by_der(alloc, octets)
    }
}

impl<'a> ReadsChoiceByBer<'a> for Source {
    ghost choice_takes = { ChoiceGives ⟦<Source as LawfulChoice>⟧.laws.arms.grammar.tags
        ⟦<Source as LawfulChoice>⟧.laws.as_arms ⟦<SourceArms as TakesArms<'a>>⟧.arms_take };

    fn choice_of_any(alloc: Global, any: Any<'a>) -> Result<Source, Error> {
        choice_of_element(alloc, any)
    }
}

impl ChecksChoice for Source {
    fn check_choice(any: &Any<'_>) -> Result<(), Error> {
        check_element::<SourceArms>(any)
    }
}

/// Each source in hand is in DER form, since its arms are.
impl AlwaysDerBy<ChoiceKind> for Source {
    fn der_by_kind(&self) {
        match self {
            Source::Place(place) => place.is_der(),
            Source::Name(name) => name.is_der(),
            Source::Measured(measured) => measured.is_der(),
        }
    }
}

/// The source at the front of the octets, by DER, and what follows it.
pub fn read_source(alloc: Global, octets: &[u8]) -> ParseResult<'_, Source, Error>
    ensures { ReadsByDer ⟦<Source as Grammar>⟧.grammar octets.now (seen result) }
{
    read_der::<Source, Error>(alloc, octets)
}

/// The source at the front of the octets, by BER, and what follows it.
pub fn read_source_by_ber(alloc: Global, octets: &[u8]) -> ParseResult<'_, Source, Error>
    ensures { ReadsByBer ⟦<Source as Grammar>⟧.grammar octets.now (seen result) }
{
    read_ber::<Source, Error>(alloc, octets)
}

/// The one strict encoding of a source. Where its length fits `usize`, it is refused only when out of memory.
pub fn source_vec(alloc: Global, source: &Source) -> SerializeResult<Vec<u8>>
    ensures { WritesStrict ⟦<Source as Grammar>⟧.grammar ⟦<Source as ToDer>⟧.writing
        source.now result }
{
    source.is_der();
    strict_vec(alloc, source)
}
