//! What a rule compares, as a part of the row of an assertion by a rule.
ghost use Rattle.asn1_rs.specs.Prelude.{by_ber, part_of, PartGives, puts_of};
ghost use Rattle.asn1_rs_ldap.specs.Endings.{compared_of};

use crate::Octets;
use crate::assertion::{DnAttributes, MatchingRuleAssertion, NotOfTheName};
use asn1_rs::author::{BorrowedRow, Fields, ReadsRow, Row, Row2, row_by_ber};
use asn1_rs::{BerParser, Defaulted, Error, SerializeResult};
use std::alloc::Global;

/// The fields from `matchValue` on.
#[derive(Drop)]
pub struct ComparedValue<'a> {
    pub value: Octets<'a, 3>,
    pub dn_attributes: Defaulted<DnAttributes, NotOfTheName>,
}

/// Its fields.
type ComparedFields<'a> = Row2<Octets<'a, 3>, Defaulted<DnAttributes, NotOfTheName>>;

impl<'a> Row for ComparedValue<'a> {
    ghost row_laws = { part_of (λ x. (x.value, (x.dn_attributes, tt)))
        ⟦<ComparedFields<'a> as Row>⟧.row_laws };
}

impl<'a> ReadsRow<'a, BerParser> for ComparedValue<'a> {
    ghost row_grammar = { ⟦<ComparedValue<'a> as Row>⟧.row_laws.grammar };

    ghost row_gives = { PartGives (λ x. (x.value, (x.dn_attributes, tt)))
        by_ber ⟦<ComparedValue<'a> as Row>⟧.row_laws.grammar
        ⟦<ComparedFields<'a> as ReadsRow<'a, BerParser>>⟧.row_gives };

    #[tactic(auto, using(asn1_rs::specs::Structs::PartsOfRows::part_read, asn1_rs::specs::Structs::PartsOfRows::part_refused))]
    fn read_row(alloc: Global, octets: &'a [u8]) -> Result<ComparedValue<'a>, Error> {
        match row_by_ber::<ComparedFields<'a>>(alloc, octets) {
            Ok(row) => {
                let (value, (dn_attributes, ())) = row;
                Ok(ComparedValue {
                    value,
                    dn_attributes,
                })
            }
            Err(e) => Err(e),
        }
    }
}

/// The same fields of an assertion, where it is written.
#[derive(Clone, Copy)]
pub struct ComparedValueOf<'s, 'a>(pub &'s MatchingRuleAssertion<'a>);

impl BorrowedRow for ComparedValueOf<'_, '_> {
    ghost puts = { λ r. puts_of ⟦<ComparedValue<'static> as Row>⟧.row_laws.list
        (compared_of r.0.now) };

    ghost have_values = { λ r. ⟦<ComparedValue<'static> as Row>⟧.row_laws.grammar.IsValue
        (⟦<ComparedValue<'static> as Row>⟧.row_laws.grammar.value (compared_of r.0.now)) };

    fn put_each(&self, fields: &mut Fields) -> SerializeResult<()> {
        let assertion = self.0;
        (&assertion.value, (&assertion.dn_attributes, ())).put_each(fields)
    }

    fn assert_each_valid(&self) {
        let assertion = self.0;
        (&assertion.value, (&assertion.dn_attributes, ())).assert_each_valid()
    }
}
