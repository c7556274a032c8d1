//! Copies of texts and of octets, and of what is made of them.
ghost use Rattle.std.specs.Prelude.{◌≡◌, string_bytes, IfOk, IfErr, option_copied, option_map};
ghost use Rattle.std.specs.Cow.{cow_slice_items, cow_str_bytes};
ghost use Rattle.asn1_headers.specs.declared.error.Error.TheVariants as errors;
ghost use Rattle.asn1_rs.specs.Any.Kept.{KeepsElement, kept_content};
ghost use Rattle.asn1_rs.specs.BitString.{bits_of_string};
ghost use Rattle.asn1_rs.specs.Copies.{IsCopyOfHeader};
ghost use Rattle.asn1_rs.specs.Integer.Octets.{integer_octets};
ghost use Rattle.asn1_rs.specs.Kept.{kept_octets};
ghost use Rattle.asn1_rs.specs.OctetString.{string_octets};
ghost use Rattle.asn1_rs.specs.Oid.{oid_value};
ghost use Rattle.asn1_rs.specs.Strings.{string_text};

use super::ToStatic;
use crate::asn1_types::any::Any;
use crate::asn1_types::any::kept::KeptAny;
use crate::asn1_types::bit_string::BitString;
use crate::asn1_types::integer::octets::Integer;
use crate::asn1_types::kept::Kept;
use crate::asn1_types::octet_string::OctetString;
use crate::asn1_types::oid::Oid;
use crate::asn1_types::strings::RestrictedString;
use asn1_headers::error::Error;
use asn1_headers::header::Header;
use std::alloc::Global;
use std::borrow::{CowSlice, CowStr};

/// A copy of the text that is owned.
fn owned_text(alloc: Global, text: &str) -> Result<String, Error>
    ensures copied { IfOk result (λ copy. string_bytes copy ≡ text.now) }
    ensures refused { IfErr result (λ e. e ≡ errors.OutOfMemory) }
{
    match String::from_str(alloc, text) {
        Ok(copy) => Ok(copy),
        Err(_) => Err(Error::OutOfMemory),
    }
}

/// A copy of the octets that is owned.
fn owned_octets(alloc: Global, octets: &[u8]) -> Result<CowSlice<'static, u8, Global>, Error>
    ensures copied { IfOk result (λ copy. cow_slice_items copy ≡ octets.now) }
    ensures refused { IfErr result (λ e. e ≡ errors.OutOfMemory) }
{
    match Vec::from_slice(alloc, octets) {
        Ok(copy) => Ok(CowSlice::Owned(copy)),
        Err(_) => Err(Error::OutOfMemory),
    }
}

/// The copy of a text is owned.
impl ToStatic for &str {
    type Owned = String;

    ghost copies = { λ source copy. string_bytes copy ≡ source.now };

    fn to_static(&self, alloc: Global) -> Result<String, Error> {
        owned_text(alloc, *self)
    }
}

impl ToStatic for String {
    type Owned = String;

    ghost copies = { λ source copy. string_bytes copy ≡ string_bytes source };

    fn to_static(&self, alloc: Global) -> Result<String, Error> {
        owned_text(alloc, self.as_str())
    }
}

impl ToStatic for CowStr<'_, Global> {
    type Owned = CowStr<'static, Global>;

    ghost copies = { λ source copy. cow_str_bytes copy ≡ cow_str_bytes source };

    fn to_static(&self, alloc: Global) -> Result<CowStr<'static, Global>, Error> {
        Ok(CowStr::Owned(owned_text(alloc, self.as_str())?))
    }
}

/// The copy of octets is owned.
impl ToStatic for CowSlice<'_, u8, Global> {
    type Owned = CowSlice<'static, u8, Global>;

    ghost copies = { λ source copy. cow_slice_items copy ≡ cow_slice_items source };

    fn to_static(&self, alloc: Global) -> Result<CowSlice<'static, u8, Global>, Error> {
        owned_octets(alloc, self.as_slice())
    }
}

/// The copy owns the identifier octets that the header keeps.
impl ToStatic for Header<'_> {
    type Owned = Header<'static>;

    ghost copies = { IsCopyOfHeader };

    fn to_static(&self, alloc: Global) -> Result<Header<'static>, Error> {
        let raw_tag = match self.raw_tag() {
            Some(octets) => Some(owned_octets(alloc, octets)?),
            None => None,
        };
        let copy = Header::new(self.class(), self.constructed(), self.tag(), self.length());
        Ok(copy.with_raw_tag(raw_tag))
    }
}

/// A copy of the element that owns its octets.
fn owned_element(
    alloc: Global,
    header: &Header<'_>,
    content: &[u8],
) -> Result<KeptAny<'static>, Error>
    ensures copied { IfOk result (KeepsElement header.now content.now) }
    ensures refused { IfErr result (λ e. e ≡ errors.OutOfMemory) }
{
    let header = header.to_static(alloc)?;
    Ok(KeptAny::new(header, owned_octets(alloc, content)?))
}

/// The copy owns its octets, which an `Any` can't.
impl ToStatic for Any<'_> {
    type Owned = KeptAny<'static>;

    ghost copies = { λ source copy. KeepsElement source.header source.content.now copy };

    fn to_static(&self, alloc: Global) -> Result<KeptAny<'static>, Error> {
        owned_element(alloc, &self.header, self.content)
    }
}

/// The copy owns its octets.
impl ToStatic for KeptAny<'_> {
    type Owned = KeptAny<'static>;

    ghost copies = { λ source copy. KeepsElement source.header (kept_content source) copy };

    fn to_static(&self, alloc: Global) -> Result<KeptAny<'static>, Error> {
        owned_element(alloc, &self.header, self.content.as_slice())
    }
}

/// The copy owns its contents octets.
impl<K: 'static> ToStatic for Kept<'_, K> {
    type Owned = Kept<'static, K>;

    ghost copies = { λ source copy. kept_octets copy ≡ kept_octets source };

    fn to_static(&self, alloc: Global) -> Result<Kept<'static, K>, Error> {
        Ok(Kept::new(owned_octets(alloc, self.as_bytes())?))
    }
}

/// The copy owns its octets.
impl ToStatic for OctetString<'_> {
    type Owned = OctetString<'static>;

    ghost copies = { λ source copy. string_octets copy ≡ string_octets source };

    fn to_static(&self, alloc: Global) -> Result<OctetString<'static>, Error> {
        Ok(OctetString::of_cow(owned_octets(alloc, self.as_bytes())?))
    }
}

/// The copy of borrowed octets is an octet string, as which they are read and written.
impl ToStatic for &[u8] {
    type Owned = OctetString<'static>;

    ghost copies = { λ source copy. string_octets copy ≡ source.now };

    fn to_static(&self, alloc: Global) -> Result<OctetString<'static>, Error> {
        Ok(OctetString::of_cow(owned_octets(alloc, *self)?))
    }
}

/// The copy owns its contents octets.
impl ToStatic for Integer<'_> {
    type Owned = Integer<'static>;

    ghost copies = { λ source copy. integer_octets copy ≡ integer_octets source };

    fn to_static(&self, alloc: Global) -> Result<Integer<'static>, Error> {
        Ok(Integer::of_cow(owned_octets(alloc, self.as_bytes())?))
    }
}

/// The copy owns its octets, of which as many bits are unused.
impl ToStatic for BitString<'_> {
    type Owned = BitString<'static>;

    ghost copies = { λ source copy. bits_of_string copy ≡ bits_of_string source };

    fn to_static(&self, alloc: Global) -> Result<BitString<'static>, Error> {
        Ok(BitString {
            unused_bits: self.unused_bits,
            content: owned_octets(alloc, self.as_bytes())?,
        })
    }
}

/// The copy owns its contents octets, and is of the same kind.
impl ToStatic for Oid<'_> {
    type Owned = Oid<'static>;

    ghost copies = { λ source copy. oid_value copy ≡ oid_value source };

    fn to_static(&self, alloc: Global) -> Result<Oid<'static>, Error> {
        self.to_owned(alloc)
    }
}

/// The copy owns its text.
impl<K: 'static, F: 'static> ToStatic for RestrictedString<'_, K, F> {
    type Owned = RestrictedString<'static, K, F>;

    ghost copies = { λ source copy. string_text copy ≡ string_text source };

    fn to_static(&self, alloc: Global) -> Result<RestrictedString<'static, K, F>, Error> {
        Ok(RestrictedString::from(owned_text(alloc, self.as_str())?))
    }
}
