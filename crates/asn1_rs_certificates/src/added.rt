//! The last three fields of what is signed, as a part of its row. Later versions added them.
ghost use Rattle.asn1_rs.specs.Prelude.{by_der, part_of, PartGives, puts_of};
ghost use Rattle.asn1_rs_certificates.specs.Certificates.{added_of};

use crate::{Extensions, IssuerUniqueId, SubjectUniqueId, TbsCertificate};
use asn1_rs::author::{BorrowedRow, Fields, ReadsRow, Row, Row3, row_by_der};
use asn1_rs::{DerParser, Error, SerializeResult};
use std::alloc::Global;

/// The fields from the identifier of the issuer on.
#[derive(Drop)]
pub struct Added<'a> {
    pub issuer_unique_id: Option<IssuerUniqueId<'a>>,
    pub subject_unique_id: Option<SubjectUniqueId<'a>>,
    pub extensions: Option<Extensions<'a>>,
}

/// Its fields.
type AddedRow<'a> = Row3<
    Option<IssuerUniqueId<'a>>,
    Option<SubjectUniqueId<'a>>,
    Option<Extensions<'a>>,
>;

impl<'a> Row for Added<'a> {
    ghost row_laws = { part_of (λ x. (x.issuer_unique_id, (x.subject_unique_id, (x.extensions, tt))))
        ⟦<AddedRow<'a> as Row>⟧.row_laws };
}

impl<'a> ReadsRow<'a, DerParser> for Added<'a> {
    ghost row_grammar = { ⟦<Added<'a> as Row>⟧.row_laws.grammar };

    ghost row_gives = { PartGives (λ x. (x.issuer_unique_id, (x.subject_unique_id, (x.extensions, tt))))
        by_der ⟦<Added<'a> as Row>⟧.row_laws.grammar
        ⟦<AddedRow<'a> as ReadsRow<'a, DerParser>>⟧.row_gives };

    #[tactic(auto, using(asn1_rs::specs::Structs::PartsOfRows::part_read, asn1_rs::specs::Structs::PartsOfRows::part_refused))]
    fn read_row(alloc: Global, octets: &'a [u8]) -> Result<Added<'a>, Error> {
        match row_by_der::<AddedRow<'a>>(alloc, octets) {
            Ok(row) => {
                let (issuer_unique_id, (subject_unique_id, (extensions, ()))) = row;
                Ok(Added {
                    issuer_unique_id,
                    subject_unique_id,
                    extensions,
                })
            }
            Err(e) => Err(e),
        }
    }
}

/// The same fields of what is signed, where it is written.
#[derive(Clone, Copy)]
pub struct AddedOf<'s, 'a>(pub &'s TbsCertificate<'a>);

impl BorrowedRow for AddedOf<'_, '_> {
    ghost puts = { λ r. puts_of ⟦<Added<'static> as Row>⟧.row_laws.list (added_of r.0.now) };

    ghost have_values = { λ r. ⟦<Added<'static> as Row>⟧.row_laws.grammar.IsValue
        (⟦<Added<'static> as Row>⟧.row_laws.grammar.value (added_of r.0.now)) };

    fn put_each(&self, fields: &mut Fields) -> SerializeResult<()> {
        let signed = self.0;
        let others = (&signed.subject_unique_id, (&signed.extensions, ()));
        (&signed.issuer_unique_id, others).put_each(fields)
    }

    fn assert_each_valid(&self) {
        let signed = self.0;
        let others = (&signed.subject_unique_id, (&signed.extensions, ()));
        (&signed.issuer_unique_id, others).assert_each_valid()
    }
}
