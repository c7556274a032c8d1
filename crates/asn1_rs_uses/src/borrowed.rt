//! Values that borrow the octets that they are read from, and last as long as those.
ghost use Rattle.std.specs.Prelude.{◌⊎◌, IfOk, IfErr};
ghost use Rattle.asn1_rs.specs.Prelude.{Exactly, IsTruncatedIdentifier, seen};
ghost use Rattle.asn1_rs.specs.OctetString.{slice_leaf, octet_string_leaf, string_octets};
ghost use Rattle.asn1_rs.specs.BitString.{bit_string_leaf, bits_of_string};
ghost use Rattle.asn1_rs.specs.Integer.Octets.{any_integer_leaf, integer_octets};
ghost use Rattle.asn1_rs.specs.Kept.{kept_octets, sequence_leaf};
ghost use Rattle.asn1_rs.specs.Lists.{ItemsGive, listed};
ghost use Rattle.asn1_rs.specs.Strings.{string_text};
ghost use Rattle.asn1_rs_uses.specs.Borrowed.{LeafByDer, BeginsWithContents, utf8_string_leaf};
ghost use Rattle.asn1_rs_uses.specs.Borrowed.{RefusesElement, HasNoText};
ghost use Rattle.asn1_rs_uses.specs.Numbers.{NoMemory};

use asn1_rs::laws::any_is_the_element;
use asn1_rs::{
    Any, BitString, Error, FromDer, Integer, OctetString, ParseResult, Sequence, Utf8String,
    read_ber, read_der,
};
use std::alloc::Global;

/// The contents octets of the element at the front of the octets, by BER. Refused as the element is.
pub fn contents_octets<'a>(alloc: Global, octets: &'a [u8]) -> Result<&'a [u8], Error>
    ensures begins { IfOk result (λ content. BeginsWithContents octets.now content.now) }
    ensures refused { IfErr result (RefusesElement octets.now) }
{
    any_is_the_element();
    let (_, element) = read_ber::<Any<'a>, Error>(alloc, octets)?;
    Ok(element.as_bytes())
}

/// The octets of the octet string at the front, by DER, and what follows it.
pub fn read_octets<'a>(alloc: Global, octets: &'a [u8]) -> ParseResult<'a, &'a [u8], Error>
    ensures { Exactly IsTruncatedIdentifier (LeafByDer slice_leaf) (λ x. x.now) NoMemory
        octets.now (seen result) }
{
    read_der::<&'a [u8], Error>(alloc, octets)
}

/// The octet string at the front, by DER, and what follows it.
pub fn read_octet_string<'a>(
    alloc: Global,
    octets: &'a [u8],
) -> ParseResult<'a, OctetString<'a>, Error>
    ensures { Exactly IsTruncatedIdentifier (LeafByDer octet_string_leaf) string_octets NoMemory
        octets.now (seen result) }
{
    read_der::<OctetString<'a>, Error>(alloc, octets)
}

/// The text at the front, by DER, as a string that borrows it, and what follows it.
pub fn read_utf8_string<'a>(
    alloc: Global,
    octets: &'a [u8],
) -> ParseResult<'a, Utf8String<'a>, Error>
    ensures { Exactly IsTruncatedIdentifier (LeafByDer utf8_string_leaf) string_text NoMemory
        octets.now (seen result) }
{
    read_der::<Utf8String<'a>, Error>(alloc, octets)
}

/// The text of the element at the front, by BER. The element is a string of any of the types that are read as UTF-8.
///
/// Refused as the element is, then with the first check of such a string that it breaks.
pub fn any_text<'a>(alloc: Global, octets: &'a [u8]) -> Result<&'a str, Error>
    ensures begins { IfOk result (λ text. BeginsWithContents octets.now text.now) }
    ensures refused { IfErr result
        (λ e. RefusesElement octets.now e ⊎ HasNoText octets.now e) }
{
    any_is_the_element();
    let (_, any) = read_ber::<Any<'a>, Error>(alloc, octets)?;
    any.as_any_string()
}

/// The bit string at the front, by DER, and what follows it.
pub fn read_bit_string<'a>(alloc: Global, octets: &'a [u8]) -> ParseResult<'a, BitString<'a>, Error>
    ensures { Exactly IsTruncatedIdentifier (LeafByDer bit_string_leaf) bits_of_string NoMemory
        octets.now (seen result) }
{
    read_der::<BitString<'a>, Error>(alloc, octets)
}

/// The integer of any size at the front, by DER, and what follows it.
pub fn read_integer<'a>(alloc: Global, octets: &'a [u8]) -> ParseResult<'a, Integer<'a>, Error>
    ensures { Exactly IsTruncatedIdentifier (LeafByDer any_integer_leaf) integer_octets NoMemory
        octets.now (seen result) }
{
    read_der::<Integer<'a>, Error>(alloc, octets)
}

/// The sequence at the front, by DER, kept as its contents octets, and what follows it.
pub fn read_sequence<'a>(alloc: Global, octets: &'a [u8]) -> ParseResult<'a, Sequence<'a>, Error>
    ensures { Exactly IsTruncatedIdentifier (LeafByDer sequence_leaf) kept_octets NoMemory
        octets.now (seen result) }
{
    read_der::<Sequence<'a>, Error>(alloc, octets)
}

/// The items of a sequence, by DER. They last as long as the sequence does, since its contents octets may be its own.
pub fn items_of<'a, T, E>(alloc: Global, sequence: &'a Sequence<'a>) -> Result<Vec<T>, E>
where
    T: FromDer<'a, E> + Drop,
    E: From<Error>,
    ensures { ItemsGive T.der_gives E.from_gives (kept_octets sequence.now) (listed result) }
{
    sequence.der_sequence_of(alloc)
}
