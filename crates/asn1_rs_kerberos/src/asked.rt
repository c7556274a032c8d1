//! The last six fields of what is asked for, as a part of its row.
ghost use Rattle.asn1_rs.specs.Prelude.{by_der, part_of, PartGives, puts_of};
ghost use Rattle.asn1_rs_kerberos.specs.Requests.{asked_of};

use crate::{EncryptedData, HostAddress, KdcReqBody, Ticket, Under};
use asn1_rs::author::{BorrowedRow, Fields, ReadsRow, Row, Row3, row_by_der};
use asn1_rs::{DerParser, Error, GeneralizedTime, SerializeResult};
use std::alloc::Global;

/// The fields from `rtime` on.
#[derive(Drop)]
pub struct Asked<'a> {
    pub rtime: Option<Under<GeneralizedTime, 6>>,
    pub nonce: Under<u32, 7>,
    pub etype: Under<Vec<i32>, 8>,
    pub addresses: Option<Under<Vec<HostAddress<'a>>, 9>>,
    pub enc_authorization_data: Option<Under<EncryptedData<'a>, 10>>,
    pub additional_tickets: Option<Under<Vec<Ticket<'a>>, 11>>,
}

/// Its fields.
type AskedRow<'a> = (
    Option<Under<GeneralizedTime, 6>>,
    (Under<u32, 7>, (Under<Vec<i32>, 8>, AddedRow<'a>)),
);

/// Those from the addresses on.
type AddedRow<'a> = Row3<
    Option<Under<Vec<HostAddress<'a>>, 9>>,
    Option<Under<EncryptedData<'a>, 10>>,
    Option<Under<Vec<Ticket<'a>>, 11>>,
>;

impl<'a> Row for Asked<'a> {
    ghost row_laws = { part_of (λ x. (
      x.rtime,
      (
        x.nonce,
        (
          x.etype,
          (x.addresses, (x.enc_authorization_data, (x.additional_tickets, tt))),
        ),
      ),
    ))
        ⟦<AskedRow<'a> as Row>⟧.row_laws };
}

impl<'a> ReadsRow<'a, DerParser> for Asked<'a> {
    ghost row_grammar = { ⟦<Asked<'a> as Row>⟧.row_laws.grammar };

    ghost row_gives = { PartGives (λ x. (
      x.rtime,
      (
        x.nonce,
        (
          x.etype,
          (x.addresses, (x.enc_authorization_data, (x.additional_tickets, tt))),
        ),
      ),
    ))
        by_der ⟦<Asked<'a> as Row>⟧.row_laws.grammar
        ⟦<AskedRow<'a> as ReadsRow<'a, DerParser>>⟧.row_gives };

    #[tactic(auto, using(asn1_rs::specs::Structs::PartsOfRows::part_read, asn1_rs::specs::Structs::PartsOfRows::part_refused))]
    fn read_row(alloc: Global, octets: &'a [u8]) -> Result<Asked<'a>, Error> {
        match row_by_der::<AskedRow<'a>>(alloc, octets) {
            Ok(row) => {
                let (rtime, (nonce, (etype, added))) = row;
                let (addresses, (enc_authorization_data, (additional_tickets, ()))) = added;
                Ok(Asked {
                    rtime,
                    nonce,
                    etype,
                    addresses,
                    enc_authorization_data,
                    additional_tickets,
                })
            }
            Err(e) => Err(e),
        }
    }
}

/// The same fields of what is asked for, where it is written.
#[derive(Clone, Copy)]
pub struct AskedOf<'s, 'a>(pub &'s KdcReqBody<'a>);

impl BorrowedRow for AskedOf<'_, '_> {
    ghost puts = { λ r. puts_of ⟦<Asked<'static> as Row>⟧.row_laws.list (asked_of r.0.now) };

    ghost have_values = { λ r. ⟦<Asked<'static> as Row>⟧.row_laws.grammar.IsValue
        (⟦<Asked<'static> as Row>⟧.row_laws.grammar.value (asked_of r.0.now)) };

    fn put_each(&self, fields: &mut Fields) -> SerializeResult<()> {
        let body = self.0;
        let added = (&body.enc_authorization_data, (&body.additional_tickets, ()));
        let others = (&body.etype, (&body.addresses, added));
        (&body.rtime, (&body.nonce, others)).put_each(fields)
    }

    fn assert_each_valid(&self) {
        let body = self.0;
        let added = (&body.enc_authorization_data, (&body.additional_tickets, ()));
        let others = (&body.etype, (&body.addresses, added));
        (&body.rtime, (&body.nonce, others)).assert_each_valid()
    }
}
