//! Borrowed octets under a tag whose number is told at run time. They are read where they are optional, and by the
//! readers of one tag number.
ghost use Rattle.std.specs.Prelude.{◌≡◌, IfOk, IfErr, IsOk, MatchOption};
ghost use Rattle.asn1_rs.specs.Prelude.{seen};
ghost use Rattle.asn1_rs.specs.OctetString.{string_octets};
ghost use Rattle.asn1_rs_uses.specs.TaggedOctets.{BeginsUnderTag, BeginsUnderNumber, BeginsWithContentsUnder};
ghost use Rattle.asn1_rs_uses.specs.TaggedOctets.{RefusesOctetsUnder, RefusesStringUnder};

use asn1_rs::laws::reader_is_exact_by_der;
use asn1_rs::{
    Error, Explicit, Header, Implicit, OctetString, OptTaggedParser, ParseResult, Tag,
    TaggedParser, parse_der_tagged_explicit, parse_der_tagged_explicit_g,
    parse_der_tagged_implicit, parse_der_tagged_implicit_g,
};
use std::alloc::Global;

/// The contents octets, behind a header. It never refuses.
fn behind_header<'a>(
    _header: Header<'_>,
    content: &'a [u8],
) -> ParseResult<'a, OctetString<'a>, Error>
    ensures content { IfOk (seen result) (λ x. content.now ≡ string_octets x.1) }
    ensures ok { IsOk result }
{
    Ok((&[], OctetString::new(content)))
}

/// The contents octets, with the header. It never refuses.
fn with_header<'a>(
    content: &'a [u8],
    _header: Header<'a>,
) -> ParseResult<'a, OctetString<'a>, Error>
    ensures content { IfOk (seen result) (λ x. content.now ≡ string_octets x.1) }
    ensures ok { IsOk result }
{
    Ok((&[], OctetString::new(content)))
}

/// The contents octets, with the tag number that was given and the header. It never refuses.
fn with_number<'a>(
    content: &'a [u8],
    _tag: Tag,
    _header: Header<'a>,
) -> ParseResult<'a, OctetString<'a>, Error>
    ensures content { IfOk (seen result) (λ x. content.now ≡ string_octets x.1) }
    ensures ok { IsOk result }
{
    Ok((&[], OctetString::new(content)))
}

/// The contents octets of the element of this context-specific tag, if it is there, by DER.
///
/// Refused as the element is, and for another class.
// Of refusals there is no clause. The prover does not find what a named function says where it is handed on. So it does
// not find that the function refuses nothing.
pub fn optional_octets<'a>(
    number: u32,
    octets: &'a [u8],
) -> ParseResult<'a, Option<OctetString<'a>>, Error>
    ensures found { IfOk (seen result) (λ x. MatchOption x.1 (x.0 ≡ octets.now)
        (λ content. BeginsUnderTag number octets.now (string_octets content) x.0)) }
{
    OptTaggedParser::tagged(number).parse_der(octets, behind_header)
}

/// The octet string under the explicit tag of this number, by DER, with the header of the tag.
///
/// Refused as the element is, and as the octet string in it is. Octets behind the string and another number are refused
/// too.
pub fn string_under<'a>(
    alloc: Global,
    number: u32,
    octets: &'a [u8],
) -> ParseResult<'a, TaggedParser<'a, Explicit, OctetString<'a>, Error>, Error>
    ensures string { IfOk (seen result)
        (λ x. BeginsUnderNumber number octets.now (string_octets x.1.inner) x.0) }
    ensures refused { IfErr (seen result) (RefusesStringUnder number octets.now) }
{
    reader_is_exact_by_der::<OctetString<'a>, Error>();
    parse_der_tagged_explicit::<Tag, OctetString<'a>, Error>(alloc, Tag(number), octets)
}

/// The octets under the implicit tag of this number, by DER, with the header of the tag.
///
/// Refused as the element is, as it is converted, and for another number.
pub fn octets_under<'a>(
    alloc: Global,
    number: u32,
    octets: &'a [u8],
) -> ParseResult<'a, TaggedParser<'a, Implicit, OctetString<'a>, Error>, Error>
    ensures content { IfOk (seen result)
        (λ x. BeginsWithContentsUnder number octets.now (string_octets x.1.inner) x.0) }
    ensures refused { IfErr (seen result) (RefusesOctetsUnder number octets.now) }
{
    parse_der_tagged_implicit::<Tag, OctetString<'a>, Error>(alloc, Tag(number), octets)
}

/// The contents octets of the element of this number, by DER, through a function of their own.
///
/// Refused as the element is, and for another number.
// Of refusals there is no clause. The prover does not find what a named function says where it is handed on. So it does
// not find that the function refuses nothing.
pub fn octets_handed_on<'a>(
    number: u32,
    octets: &'a [u8],
) -> ParseResult<'a, OctetString<'a>, Error>
    ensures content { IfOk (seen result)
        (λ x. BeginsWithContentsUnder number octets.now (string_octets x.1) x.0) }
{
    parse_der_tagged_explicit_g(Tag(number), octets, with_header)
}

/// The same, under the tag number of octet strings.
// Of refusals there is no clause. The prover does not find what a named function says where it is handed on. So it does
// not find that the function refuses nothing.
pub fn octets_handed_under<'a>(
    number: u32,
    octets: &'a [u8],
) -> ParseResult<'a, OctetString<'a>, Error>
    ensures content { IfOk (seen result)
        (λ x. BeginsWithContentsUnder number octets.now (string_octets x.1) x.0) }
{
    parse_der_tagged_implicit_g(Tag(number), octets, with_number)
}
