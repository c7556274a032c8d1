//! BER reader, DER reader and writer of ITU-T X.690, with the names of the Rust crate asn1-rs 0.7.2.
//!
//! - [`FromBer`], [`FromDer`] read a value at the front of octets: `T::from_der(alloc, octets)` answers what follows
//!   it, and the value.
//! - [`ToDer`] writes a value: `x.to_der_vec(alloc)`, `x.write_der(alloc, &mut writer)`.
//! - [`read_ber`], [`read_der`], [`write_strict`] and [`strict_vec`] do the same with the theorem in their contracts.
//! - [`Any`] is any element, and [`Header`] what stands in front of its contents octets.
//! - Machine integers, `bool`, `&str`, `String`, `&[u8]`, `Vec`, `Option`, `BTreeSet` and `HashSet` are read and
//!   written as they are. [`Integer`], [`BitString`], [`OctetString`], [`Oid`], [`UtcTime`], [`GeneralizedTime`], the
//!   strings, [`SequenceOf`] and [`SetOf`] are types of the crate.
//! - [`TaggedExplicit`], [`TaggedImplicit`] and their kin are values under a tag.
//! - [`author`] has what makes a struct or an enum of yours such a type, [`laws`] what proofs of callers cite.
//!
//! A caller states what it knows in one line:
//!
//! ```rust
//! pub fn read_numbers(alloc: Global, octets: &[u8]) -> ParseResult<'_, Vec<u32>, Error>
//!     ensures { Exactly IsTruncatedIdentifier ShortNumbers (λ numbers. map pos numbers.items)
//!         WantsMemory octets.now (seen result) }
//! {
//!     read_der::<Vec<u32>, Error>(alloc, octets)
//! }
//! ```
//!
//! Each type names its *kind* ([`HasKind`]), and its readers, its writers and their laws follow from the kind. `kinds`
//! has what is read as one element, lists and sets, `structs` structs of fields, `choices` choices. `laws` has the
//! calls with the theorem. A grammar stands in `specs/` under the name of its type.
//!
//! `docs/GUIDE.md` shows how a message is written, `docs/STANDARD.md` which octets each type takes, `docs/EXTENDING.md`
//! how a type is added.
#![tactic(auto)]

mod asn1_types;
pub mod author;
mod ber;
mod choices;
mod der;
mod field_reader;
mod header;
mod kinds;
pub mod laws;
mod length;
mod macros;
mod structs;
mod to_der;
mod to_static;
mod traits;
mod whole;

// reading and writing
pub use crate::ber::{MAX_RECURSION, any_from_ber_counted};
pub use crate::field_reader::FieldReader;
pub use crate::laws::{read_ber, read_der, strict_vec, write_strict};
pub use crate::to_der::ToDer;
pub use crate::to_static::ToStatic;
pub use crate::traits::{
    ASN1Parser, BerChoice, CheckDerConstraints, Choice, DerAutoDerive, DerChoice, DynTagged,
    FromAny, FromBer, FromDer, Tagged,
};
pub use crate::whole::{from_ber_whole, from_der_whole, read_ber_whole, read_der_whole};
pub use asn1_headers::buffer::DerBuffer;
pub use asn1_headers::content::{BerParser, DerParser, GetObjectContent};
pub use asn1_headers::writer::{DerWrite, Told};

// errors
pub use crate::asn1_types::oid::making::OidParseError;
pub use asn1_headers::class::BerClassFromIntError;
pub use asn1_headers::error::{
    DerConstraint, Err, Error, IResult, Needed, ParseResult, SerializeError, SerializeResult,
    from_nom_error,
};
pub use asn1_headers::message::Message;

// elements and their headers
pub use crate::asn1_types::any::Any;
pub use crate::asn1_types::any::kept::KeptAny;
pub use crate::asn1_types::end_of_content::EndOfContent;
pub use asn1_headers::ber::Steps;
pub use asn1_headers::class::Class;
pub use asn1_headers::header::Header;
pub use asn1_headers::length::Length;
pub use asn1_headers::tag::Tag;

// types
pub use crate::asn1_types::bit_string::BitString;
pub use crate::asn1_types::boolean::Boolean;
pub use crate::asn1_types::embedded_pdv::{EmbeddedPdv, PdvIdentification};
pub use crate::asn1_types::enumerated::Enumerated;
pub use crate::asn1_types::integer::octets::Integer;
pub use crate::asn1_types::kept::kinds::{Sequence, Set};
pub use crate::asn1_types::null::Null;
pub use crate::asn1_types::octet_string::OctetString;
pub use crate::asn1_types::oid::Oid;
pub use crate::asn1_types::oid::iterator::SubIdentifierIterator;
pub use crate::asn1_types::sequence::iterator::{SequenceIterator, SetIterator};
pub use crate::asn1_types::sequence::sequence_of::SequenceOf;
pub use crate::asn1_types::set::set_of::SetOf;
pub use crate::asn1_types::strings::TestValidCharset;
pub use crate::asn1_types::strings::kinds::{
    BmpString, GeneralString, GraphicString, Ia5String, NumericString, ObjectDescriptor,
    PrintableString, TeletexString, UniversalString, Utf8String, VideotexString, VisibleString,
};
pub use crate::asn1_types::times::generalized_time::GeneralizedTime;
pub use crate::asn1_types::times::utc_time::UtcTime;
pub use crate::asn1_types::times::{ASN1DateTime, ASN1TimeZone};
pub use crate::choices::boxed::Boxed;
pub use crate::structs::defaulted::{DefaultFalse, Defaulted};
pub use x690::times::text::ShownText;

// values under tags
pub use crate::asn1_types::tagged::builder::{
    TaggedParserBuilder, parse_der_tagged_explicit, parse_der_tagged_implicit,
};
pub use crate::asn1_types::tagged::helpers::{
    parse_der_tagged_explicit_g, parse_der_tagged_implicit_g,
};
pub use crate::asn1_types::tagged::optional::OptTaggedParser;
pub use crate::asn1_types::tagged::parser::{AsTaggedExplicit, AsTaggedImplicit, TaggedParser};
pub use crate::asn1_types::tagged::{
    ApplicationExplicit, ApplicationImplicit, Explicit, Implicit, OptTaggedExplicit,
    OptTaggedImplicit, PrivateExplicit, PrivateImplicit, TaggedExplicit, TaggedImplicit,
    TaggedValue,
};
