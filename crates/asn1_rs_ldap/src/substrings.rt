//! Filters of parts of texts (RFC 4511, 4.5.1.7.2).
ghost use Rattle.asn1_rs.specs.Prelude.{choice_of, choice_type, MadeOf, refl, struct_of};
ghost use Rattle.asn1_rs.specs.declared.choices.arms.Or.TheVariants as arm;
ghost use Rattle.asn1_rs_ldap.specs.declared.substrings.Substring.TheVariants as substrings;

use crate::Octets;
use asn1_rs::author::{
    Arms, ChoiceKind, ChoiceReader, Fields, FieldsKind, HasKind, HasReader, LawfulChoice,
    LawfulStruct, LawfulType, Never, OfArms, Or, OrTagged, ReadsChoiceByBer, ReadsFieldsByBer,
    ReadsRow, Row, Row2, StructReader, UsesArm, choice_of_element,
};
use asn1_rs::{
    Any, BerParser, DynTagged, Error, OctetString, SerializeResult, Tag, assert_fields_valid,
    put_fields, read_fields,
};
use std::alloc::Global;

/// A part of a text, and where it stands.
///
///     CHOICE {
///         initial  [0] AssertionValue,
///         any      [1] AssertionValue,
///         final    [2] AssertionValue }
#[derive(Debug, PartialEq, Eq, Drop)]
pub enum Substring<'a> {
    Initial(Octets<'a, 0>),
    Within(Octets<'a, 1>),
    Final(Octets<'a, 2>),
}

/// Its arms.
pub type SubstringArms<'a> = OrTagged<
    Octets<'a, 0>,
    OrTagged<Octets<'a, 1>, OrTagged<Octets<'a, 2>, Never>>,
>;

impl HasKind for Substring<'_> {
    type Kind = ChoiceKind;
}

impl HasReader for Substring<'_> {
    type Reader = ChoiceReader;
}

impl DynTagged for Substring<'_> {
    ghost dyn_tag = { λ s. elim s [
      | substrings.Initial x ↦ record { 0 = 0 }
      | substrings.Within x ↦ record { 0 = 1 }
      | substrings.Final x ↦ record { 0 = 2 }
    ] };

    fn tag(&self) -> Tag {
        match self {
            Substring::Initial(octets) => octets.tag(),
            Substring::Within(octets) => octets.tag(),
            Substring::Final(octets) => octets.tag(),
        }
    }
}

impl<'a> LawfulChoice for Substring<'a> {
    ghost laws = { choice_of (λ s. elim s [
      | substrings.Initial x ↦ arm.This x
      | substrings.Within x ↦ arm.Other (arm.This x)
      | substrings.Final x ↦ arm.Other (arm.Other (arm.This x))
    ])
        ⟦<SubstringArms<'a> as Arms>⟧.arm_laws refl };

    fn with_arm<U: UsesArm>(&self, using: U) -> U::Answer {
        match self {
            Substring::Initial(octets) => using.use_arm(octets),
            Substring::Within(octets) => using.use_arm(octets),
            Substring::Final(octets) => using.use_arm(octets),
        }
    }
}

impl<'a> OfArms for Substring<'a> {
    type Arms = SubstringArms<'a>;

    ghost as_arms = { λ s. elim s [
      | substrings.Initial x ↦ arm.This x
      | substrings.Within x ↦ arm.Other (arm.This x)
      | substrings.Final x ↦ arm.Other (arm.Other (arm.This x))
    ] };

    fn of_arms(arms: SubstringArms<'a>) -> Substring<'a> {
        match arms {
            Or::This(octets) => Substring::Initial(octets),
            Or::Other(Or::This(octets)) => Substring::Within(octets),
            Or::Other(Or::Other(Or::This(octets))) => Substring::Final(octets),
            Or::Other(Or::Other(Or::Other(none))) => match none {},
        }
    }
}

impl<'a> ReadsChoiceByBer<'a> for Substring<'a> {
    fn choice_of_any(alloc: Global, any: Any<'a>) -> Result<Substring<'a>, Error> {
        choice_of_element(alloc, any)
    }
}

/// A part is an item of lists.
impl<'a> LawfulType for Substring<'a> {
    ghost type_laws = { choice_type ⟦<Substring<'a> as LawfulChoice>⟧.laws };
}

/// That the value of an attribute has these parts, in their order.
///
///     SubstringFilter ::= SEQUENCE {
///         type        AttributeDescription,
///         substrings  SEQUENCE SIZE (1..MAX) OF substring Substring }
#[derive(Debug, PartialEq, Drop)]
pub struct SubstringFilter<'a> {
    pub attribute: OctetString<'a>,
    pub substrings: Vec<Substring<'a>>,
}

/// Its fields.
pub type SubstringFilterRow<'a> = Row2<OctetString<'a>, Vec<Substring<'a>>>;

impl HasKind for SubstringFilter<'_> {
    type Kind = FieldsKind;
}

impl HasReader for SubstringFilter<'_> {
    type Reader = StructReader;
}

impl<'a> LawfulStruct for SubstringFilter<'a> {
    ghost laws = { struct_of (λ x. (x.attribute, (x.substrings, tt)))
        ⟦<SubstringFilterRow<'a> as Row>⟧.row_laws refl };

    fn put_row(&self, fields: &mut Fields) -> SerializeResult<()> {
        put_fields!(self, fields => attribute, substrings)
    }

    fn assert_row_valid(&self) {
        assert_fields_valid!(self => attribute, substrings)
    }
}

impl<'a> ReadsFieldsByBer<'a> for SubstringFilter<'a> {
    ghost fields_give_by_ber = { MadeOf ⟦<SubstringFilter<'a> as LawfulStruct>⟧.laws.as_row
        ⟦<SubstringFilterRow<'a> as ReadsRow<'a, BerParser>>⟧.row_gives };

    fn read_fields_by_ber(alloc: Global, octets: &'a [u8]) -> Result<SubstringFilter<'a>, Error> {
        read_fields!(row_by_ber, alloc, octets => SubstringFilter { attribute, substrings })
    }
}
