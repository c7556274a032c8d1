//! Names of Kerberos (RFC 4120, 5.2.2), read by DER field by field, and borrowed from the octets.
//!
//! `TakesSequence`, by which the reader is told, says that a sequence by DER stands before the rest. It leaves open
//! which fields are read, and why octets are refused. `FieldReader` says of each field what its reader answered, and no
//! clause joins these answers to the struct.
ghost use Rattle.asn1_rs.specs.FieldReader.{TakesSequence};

use asn1_rs::{Error, FieldReader, FromDer, GeneralString, ParseResult, TaggedExplicit};
use std::alloc::Global;

/// A value under an explicit, context-specific tag.
pub type Under<T, const TAG: u32> = TaggedExplicit<T, Error, TAG>;

/// The name of a client or of a service.
///
///     PrincipalName ::= SEQUENCE {
///         name-type    [0] Int32,
///         name-string  [1] SEQUENCE OF KerberosString }
#[derive(Debug, PartialEq, Eq, Drop)]
pub struct PrincipalName<'a> {
    pub name_type: Under<i32, 0>,
    pub name_string: Under<Vec<GeneralString<'a>>, 1>,
}

impl<'a> FromDer<'a, Error> for PrincipalName<'a> {
    ghost der_gives = { TakesSequence };

    fn from_der(alloc: Global, bytes: &'a [u8]) -> ParseResult<'a, PrincipalName<'a>, Error> {
        let (rest, mut fields) = FieldReader::of_sequence(alloc, bytes)?;
        let name = PrincipalName {
            name_type: fields.next()?,
            name_string: fields.next()?,
        };
        fields.end()?;
        Ok((rest, name))
    }
}
