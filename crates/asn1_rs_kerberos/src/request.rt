//! The request whole (RFC 4120, 5.4.1).
ghost use Rattle.std.specs.Prelude.{◌≡◌, ◌⊎◌, MatchResult};
ghost use Rattle.asn1_rs.specs.Prelude.{MadeOf, ReadsByDer, refl, seen, struct_of, WritesStrict};
ghost use Rattle.asn1_rs_kerberos.specs.Requests.{IsAsReq, IsNoAsReq};

use crate::{KdcReqBody, PaData, Under, Version5};
use asn1_rs::author::{
    Fields, FieldsKind, HasKind, HasReader, LawfulStruct, ReadsFields, ReadsRow, Row, Row4,
    StructReader,
};
use asn1_rs::laws::Grammar;
use asn1_rs::{
    ApplicationExplicit, DerParser, Error, ParseResult, SerializeResult, Tag, ToDer,
    assert_fields_valid, put_fields, read_der, read_fields, strict_vec,
};
use asn1_rs_profiles::{Either, Range, Refined};
use std::alloc::Global;

/// The first request of a client: `AS-REQ ::= [APPLICATION 10] KDC-REQ`.
pub type AsReq<'a> = ApplicationExplicit<KdcReq<'a>, Error, 10>;

/// What a request asks for: a first ticket (AS), or a further one (TGS).
pub type RequestType = Refined<u8, Either<Range<10, 10>, Range<12, 12>>>;

/// A request.
///
///     KDC-REQ ::= SEQUENCE {
///         pvno      [1] INTEGER,
///         msg-type  [2] INTEGER,
///         padata    [3] SEQUENCE OF PA-DATA OPTIONAL,
///         req-body  [4] KDC-REQ-BODY }
#[derive(Debug, PartialEq, Eq, Drop)]
pub struct KdcReq<'a> {
    pub pvno: Under<Version5, 1>,
    pub msg_type: Under<RequestType, 2>,
    pub padata: Option<Under<Vec<PaData<'a>>, 3>>,
    pub req_body: Under<KdcReqBody<'a>, 4>,
}

/// Its fields.
pub type KdcReqRow<'a> = Row4<
    Under<Version5, 1>,
    Under<RequestType, 2>,
    Option<Under<Vec<PaData<'a>>, 3>>,
    Under<KdcReqBody<'a>, 4>,
>;

impl HasKind for KdcReq<'_> {
    type Kind = FieldsKind;
}

impl HasReader for KdcReq<'_> {
    type Reader = StructReader;
}

impl<'a> LawfulStruct for KdcReq<'a> {
    ghost laws = { struct_of (λ x. (x.pvno, (x.msg_type, (x.padata, (x.req_body, tt)))))
        ⟦<KdcReqRow<'a> as Row>⟧.row_laws refl };

    fn put_row(&self, fields: &mut Fields) -> SerializeResult<()> {
        put_fields!(self, fields => pvno, msg_type, padata, req_body)
    }

    fn assert_row_valid(&self) {
        assert_fields_valid!(self => pvno, msg_type, padata, req_body)
    }
}

impl<'a> ReadsFields<'a> for KdcReq<'a> {
    ghost fields_give = { MadeOf ⟦<KdcReq<'a> as LawfulStruct>⟧.laws.as_row
        ⟦<KdcReqRow<'a> as ReadsRow<'a, DerParser>>⟧.row_gives };

    fn read_fields(alloc: Global, octets: &'a [u8]) -> Result<KdcReq<'a>, Error> {
        read_fields!(row_by_der, alloc, octets => KdcReq { pvno, msg_type, padata, req_body })
    }
}

/// The request at the front of the octets, by DER, and what follows it.
pub fn read_request<'a>(alloc: Global, octets: &'a [u8]) -> ParseResult<'a, AsReq<'a>, Error>
    ensures { ReadsByDer ⟦<AsReq<'a> as Grammar>⟧.grammar octets.now (seen result) }
{
    read_der::<AsReq<'a>, Error>(alloc, octets)
}

/// The one strict encoding of a request in DER form. Where its length fits `usize`, it is refused only when out of
/// memory.
pub fn request_vec(alloc: Global, request: &AsReq<'_>) -> SerializeResult<Vec<u8>>
    ensures { ⟦<AsReq<'static> as Grammar>⟧.grammar.IsDer
        (⟦<AsReq<'static> as Grammar>⟧.grammar.value request.now) →
        WritesStrict ⟦<AsReq<'static> as Grammar>⟧.grammar ⟦<AsReq<'static> as ToDer>⟧.writing
        request.now result }
{
    strict_vec(alloc, request)
}

impl KdcReq<'_> {
    /// Each request in hand has the version and one of the types of RFC 4120.
    pub fn has_numbers(&self)
        ensures version { self.now.pvno.inner.value ≡ 5 }
        ensures types { (self.now.msg_type.inner.value ≡ 10) ⊎
            (self.now.msg_type.inner.value ≡ 12) }
    {}

    /// Refuses a request for a further ticket.
    pub fn assert_as_req(&self) -> Result<(), Error>
        ensures { MatchResult result (λ _. IsAsReq self.now) (IsNoAsReq self.now) }
    {
        if *self.msg_type.as_inner().get() != 10 {
            return Err(Tag::Integer.invalid_value("another message"));
        }
        Ok(())
    }
}
