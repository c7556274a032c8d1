//! What is asked for (RFC 4120, 5.4.1). A row of twelve fields is more than the checker takes at once. So the last six
//! fields stand in `asked`.
ghost use Rattle.asn1_rs.specs.Prelude.{MadeOf, refl, struct_of};
ghost use Rattle.asn1_rs_kerberos.specs.Requests.{asked_of};

use crate::asked::{Asked, AskedOf};
use crate::{EncryptedData, HostAddress, PrincipalName, Ticket, Under};
use asn1_rs::author::{
    BorrowedRow, Fields, FieldsKind, HasKind, HasReader, LawfulStruct, ReadsFields, ReadsRow, Row,
    StructReader, row_by_der,
};
use asn1_rs::{BitString, DerParser, Error, GeneralString, GeneralizedTime, SerializeResult};
use std::alloc::Global;

/// What is asked for.
///
///     KDC-REQ-BODY ::= SEQUENCE {
///         kdc-options             [0] KDCOptions,
///         cname                   [1] PrincipalName OPTIONAL,
///         realm                   [2] Realm,
///         sname                   [3] PrincipalName OPTIONAL,
///         from                    [4] KerberosTime OPTIONAL,
///         till                    [5] KerberosTime,
///         rtime                   [6] KerberosTime OPTIONAL,
///         nonce                   [7] UInt32,
///         etype                   [8] SEQUENCE OF Int32,
///         addresses               [9] HostAddresses OPTIONAL,
///         enc-authorization-data  [10] EncryptedData OPTIONAL,
///         additional-tickets      [11] SEQUENCE OF Ticket OPTIONAL }
#[derive(Debug, PartialEq, Eq, Drop)]
pub struct KdcReqBody<'a> {
    pub kdc_options: Under<BitString<'a>, 0>,
    pub cname: Option<Under<PrincipalName<'a>, 1>>,
    pub realm: Under<GeneralString<'a>, 2>,
    pub sname: Option<Under<PrincipalName<'a>, 3>>,
    pub from: Option<Under<GeneralizedTime, 4>>,
    pub till: Under<GeneralizedTime, 5>,
    pub rtime: Option<Under<GeneralizedTime, 6>>,
    pub nonce: Under<u32, 7>,
    pub etype: Under<Vec<i32>, 8>,
    pub addresses: Option<Under<Vec<HostAddress<'a>>, 9>>,
    pub enc_authorization_data: Option<Under<EncryptedData<'a>, 10>>,
    pub additional_tickets: Option<Under<Vec<Ticket<'a>>, 11>>,
}

/// Its fields: who asks for which service and until when, and the others.
pub type KdcReqBodyRow<'a> = (
    Under<BitString<'a>, 0>,
    (Option<Under<PrincipalName<'a>, 1>>, TimedRow<'a>),
);

/// The fields from the realm on: the service, and until when.
type TimedRow<'a> = (
    Under<GeneralString<'a>, 2>,
    (
        Option<Under<PrincipalName<'a>, 3>>,
        (
            Option<Under<GeneralizedTime, 4>>,
            (Under<GeneralizedTime, 5>, Asked<'a>),
        ),
    ),
);

impl HasKind for KdcReqBody<'_> {
    type Kind = FieldsKind;
}

impl HasReader for KdcReqBody<'_> {
    type Reader = StructReader;
}

impl<'a> LawfulStruct for KdcReqBody<'a> {
    ghost laws = { struct_of (λ x. (x.kdc_options, (x.cname, (x.realm, (x.sname, (x.from, (x.till, asked_of x)))))))
        ⟦<KdcReqBodyRow<'a> as Row>⟧.row_laws refl };

    fn put_row(&self, fields: &mut Fields) -> SerializeResult<()> {
        let timed = (&self.sname, (&self.from, (&self.till, AskedOf(self))));
        (&self.kdc_options, (&self.cname, (&self.realm, timed))).put_each(fields)
    }

    fn assert_row_valid(&self) {
        let timed = (&self.sname, (&self.from, (&self.till, AskedOf(self))));
        (&self.kdc_options, (&self.cname, (&self.realm, timed))).assert_each_valid()
    }
}

impl<'a> ReadsFields<'a> for KdcReqBody<'a> {
    ghost fields_give = { MadeOf ⟦<KdcReqBody<'a> as LawfulStruct>⟧.laws.as_row
        ⟦<KdcReqBodyRow<'a> as ReadsRow<'a, DerParser>>⟧.row_gives };

    fn read_fields(alloc: Global, octets: &'a [u8]) -> Result<KdcReqBody<'a>, Error> {
        match row_by_der::<KdcReqBodyRow<'a>>(alloc, octets) {
            Ok(row) => {
                let (kdc_options, (cname, (realm, (sname, (from, (till, asked)))))) = row;
                Ok(KdcReqBody {
                    kdc_options,
                    cname,
                    realm,
                    sname,
                    from,
                    till,
                    rtime: asked.rtime,
                    nonce: asked.nonce,
                    etype: asked.etype,
                    addresses: asked.addresses,
                    enc_authorization_data: asked.enc_authorization_data,
                    additional_tickets: asked.additional_tickets,
                })
            }
            Err(e) => Err(e),
        }
    }
}
