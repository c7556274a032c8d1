//! For whom a certificate is, and the fields behind, as a part of its row.
ghost use Rattle.asn1_rs.specs.Prelude.{by_der, part_of, PartGives, puts_of};
ghost use Rattle.asn1_rs_certificates.specs.Certificates.{holder_of};

use crate::added::{Added, AddedOf};
use crate::{Name, TbsCertificate};
use asn1_rs::author::{BorrowedRow, Fields, ReadsRow, Row, row_by_der};
use asn1_rs::{DerParser, Error, SerializeResult};
use asn1_rs_messages::{SubjectPublicKeyInfo, Validity};
use std::alloc::Global;

/// The fields from the validity on.
#[derive(Drop)]
pub struct Holder<'a> {
    pub validity: Validity,
    pub subject: Name<'a>,
    pub subject_public_key_info: SubjectPublicKeyInfo<'a>,
    pub added: Added<'a>,
}

/// Its fields.
type HolderRow<'a> = (Validity, (Name<'a>, (SubjectPublicKeyInfo<'a>, Added<'a>)));

impl<'a> Row for Holder<'a> {
    ghost row_laws = { part_of (λ x. (x.validity, (x.subject, (x.subject_public_key_info, x.added))))
        ⟦<HolderRow<'a> as Row>⟧.row_laws };
}

impl<'a> ReadsRow<'a, DerParser> for Holder<'a> {
    ghost row_grammar = { ⟦<Holder<'a> as Row>⟧.row_laws.grammar };

    ghost row_gives = { PartGives (λ x. (x.validity, (x.subject, (x.subject_public_key_info, x.added))))
        by_der ⟦<Holder<'a> as Row>⟧.row_laws.grammar
        ⟦<HolderRow<'a> as ReadsRow<'a, DerParser>>⟧.row_gives };

    #[tactic(auto, using(asn1_rs::specs::Structs::PartsOfRows::part_read, asn1_rs::specs::Structs::PartsOfRows::part_refused))]
    fn read_row(alloc: Global, octets: &'a [u8]) -> Result<Holder<'a>, Error> {
        match row_by_der::<HolderRow<'a>>(alloc, octets) {
            Ok(row) => {
                let (validity, (subject, (subject_public_key_info, added))) = row;
                Ok(Holder {
                    validity,
                    subject,
                    subject_public_key_info,
                    added,
                })
            }
            Err(e) => Err(e),
        }
    }
}

/// The same fields of what is signed, where it is written.
#[derive(Clone, Copy)]
pub struct HolderOf<'s, 'a>(pub &'s TbsCertificate<'a>);

impl BorrowedRow for HolderOf<'_, '_> {
    ghost puts = { λ r. puts_of ⟦<Holder<'static> as Row>⟧.row_laws.list (holder_of r.0.now) };

    ghost have_values = { λ r. ⟦<Holder<'static> as Row>⟧.row_laws.grammar.IsValue
        (⟦<Holder<'static> as Row>⟧.row_laws.grammar.value (holder_of r.0.now)) };

    fn put_each(&self, fields: &mut Fields) -> SerializeResult<()> {
        let signed = self.0;
        let key = (&signed.subject_public_key_info, AddedOf(signed));
        (&signed.validity, (&signed.subject, key)).put_each(fields)
    }

    fn assert_each_valid(&self) {
        let signed = self.0;
        let key = (&signed.subject_public_key_info, AddedOf(signed));
        (&signed.validity, (&signed.subject, key)).assert_each_valid()
    }
}
