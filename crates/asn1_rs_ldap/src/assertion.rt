//! What a filter asserts of an attribute (RFC 4511, 4.1.6 and 4.5.1.7).
ghost use Rattle.asn1_rs.specs.Prelude.{its_own_type, MadeOf, refl, struct_of};
ghost use Rattle.std.proofs.Common.{false};
ghost use Rattle.asn1_rs_ldap.specs.Endings.{compared_of};
ghost use Rattle.asn1_rs.specs.Structs.DefaultTypes.{default_bool, default_implicit};

use crate::Octets;
use crate::matching::{ComparedValue, ComparedValueOf};
use asn1_rs::author::{
    BorrowedRow, DefaultOf, Fields, FieldsKind, HasKind, HasReader, LawfulStruct, ReadsFieldsByBer,
    ReadsRow, Row, Row2, StructReader, row_by_ber,
};
use asn1_rs::{
    BerParser, Defaulted, Error, OctetString, SerializeResult, TaggedImplicit, assert_fields_valid,
    put_fields, read_fields,
};
use std::alloc::Global;

/// That an attribute has a value, or one that stands in an order to it.
///
///     AttributeValueAssertion ::= SEQUENCE {
///         attributeDesc   AttributeDescription,
///         assertionValue  AssertionValue }
#[derive(Debug, PartialEq, Eq, Drop)]
pub struct AttributeValueAssertion<'a> {
    pub attribute: OctetString<'a>,
    pub value: OctetString<'a>,
}

/// Its fields.
pub type AttributeValueRow<'a> = Row2<OctetString<'a>, OctetString<'a>>;

impl HasKind for AttributeValueAssertion<'_> {
    type Kind = FieldsKind;
}

impl HasReader for AttributeValueAssertion<'_> {
    type Reader = StructReader;
}

impl<'a> LawfulStruct for AttributeValueAssertion<'a> {
    ghost laws = { struct_of (λ x. (x.attribute, (x.value, tt)))
        ⟦<AttributeValueRow<'a> as Row>⟧.row_laws refl };

    fn put_row(&self, fields: &mut Fields) -> SerializeResult<()> {
        put_fields!(self, fields => attribute, value)
    }

    fn assert_row_valid(&self) {
        assert_fields_valid!(self => attribute, value)
    }
}

impl<'a> ReadsFieldsByBer<'a> for AttributeValueAssertion<'a> {
    ghost fields_give_by_ber = { MadeOf ⟦<AttributeValueAssertion<'a> as LawfulStruct>⟧.laws.as_row
        ⟦<AttributeValueRow<'a> as ReadsRow<'a, BerParser>>⟧.row_gives };

    fn read_fields_by_ber(
        alloc: Global,
        octets: &'a [u8],
    ) -> Result<AttributeValueAssertion<'a>, Error> {
        read_fields!(row_by_ber, alloc, octets => AttributeValueAssertion { attribute, value })
    }
}

/// That a value matches by a rule, which an attribute or the entry's name has.
///
///     MatchingRuleAssertion ::= SEQUENCE {
///         matchingRule  [1] MatchingRuleId OPTIONAL,
///         type          [2] AttributeDescription OPTIONAL,
///         matchValue    [3] AssertionValue,
///         dnAttributes  [4] BOOLEAN DEFAULT FALSE }
#[derive(Debug, PartialEq, Eq, Drop)]
pub struct MatchingRuleAssertion<'a> {
    pub rule: Option<Octets<'a, 1>>,
    pub attribute: Option<Octets<'a, 2>>,
    pub value: Octets<'a, 3>,
    pub dn_attributes: Defaulted<DnAttributes, NotOfTheName>,
}

/// Whether the attributes of the entry's name count too, under its tag.
pub type DnAttributes = TaggedImplicit<bool, Error, 4>;

/// That they do not, where nothing is said.
#[derive(Debug, PartialEq, Eq, Drop)]
pub struct NotOfTheName;

impl DefaultOf<DnAttributes> for NotOfTheName {
    ghost default_laws = { default_implicit 2 4 (λ x. x.inner) (default_bool false) };

    fn default_value(_alloc: Global) -> DnAttributes {
        DnAttributes::implicit(false)
    }

    fn is_default(value: &DnAttributes) -> bool {
        !*value.as_inner()
    }

    ghost of_type = { its_own_type refl };
}

/// Its fields.
pub type MatchingRuleRow<'a> = (
    Option<Octets<'a, 1>>,
    (Option<Octets<'a, 2>>, ComparedValue<'a>),
);

impl HasKind for MatchingRuleAssertion<'_> {
    type Kind = FieldsKind;
}

impl HasReader for MatchingRuleAssertion<'_> {
    type Reader = StructReader;
}

impl<'a> LawfulStruct for MatchingRuleAssertion<'a> {
    ghost laws = { struct_of (λ x. (x.rule, (x.attribute, compared_of x)))
        ⟦<MatchingRuleRow<'a> as Row>⟧.row_laws refl };

    fn put_row(&self, fields: &mut Fields) -> SerializeResult<()> {
        (&self.rule, (&self.attribute, ComparedValueOf(self))).put_each(fields)
    }

    fn assert_row_valid(&self) {
        (&self.rule, (&self.attribute, ComparedValueOf(self))).assert_each_valid()
    }
}

impl<'a> ReadsFieldsByBer<'a> for MatchingRuleAssertion<'a> {
    ghost fields_give_by_ber = { MadeOf ⟦<MatchingRuleAssertion<'a> as LawfulStruct>⟧.laws.as_row
        ⟦<MatchingRuleRow<'a> as ReadsRow<'a, BerParser>>⟧.row_gives };

    fn read_fields_by_ber(
        alloc: Global,
        octets: &'a [u8],
    ) -> Result<MatchingRuleAssertion<'a>, Error> {
        match row_by_ber::<MatchingRuleRow<'a>>(alloc, octets) {
            Ok(row) => {
                let (rule, (attribute, compared)) = row;
                Ok(MatchingRuleAssertion {
                    rule,
                    attribute,
                    value: compared.value,
                    dn_attributes: compared.dn_attributes,
                })
            }
            Err(e) => Err(e),
        }
    }
}
