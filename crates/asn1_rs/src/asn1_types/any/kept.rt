//! Elements of any type whose octets are borrowed or owned (X.690 8.1.1).
ghost use Rattle.std.specs.Prelude.{◌≡◌, Ok};
ghost use Rattle.asn1_headers.specs.Header.{tag_of, LendsRawTag};
ghost use Rattle.asn1_rs.specs.Any.{parts_of, IsDefiniteOr, IsTheElement};
ghost use Rattle.asn1_rs.specs.Any.Kept.{as_element, kept_content, kept_element, kept_element_writing};
ghost use Rattle.asn1_rs.specs.Copies.{IsCopyOfHeader};
ghost use Rattle.asn1_rs.specs.Kinds.{InnerGives};
ghost use Rattle.asn1_rs.specs.Laws.Any.Kept.{kept_element_converts, kept_element_lawful};
ghost use Rattle.asn1_rs.specs.Laws.Any.Kept.{kept_element_lawful_writing, kept_elements_same};
ghost use Rattle.asn1_rs.specs.Laws.Any.Value.{element_checks};
ghost use Rattle.asn1_rs.specs.Laws.AssertValid.{element_each_der};

use crate::asn1_types::any::Any;
use crate::kinds::assert_valid::DerElement;
use crate::kinds::reading::LawfulCheckBy;
use crate::kinds::{ElementKind, HasKind, LawfulConversion, LawfulElement};
use crate::laws::assert_valid::assert_octets_valid;
use crate::laws::{LawfulMember, LawfulWrite};
use crate::to_der::ToDer;
use crate::traits::{CheckDerConstraints, DerAutoDerive, DynTagged, FromAny};
use asn1_headers::buffer::DerBuffer;
use asn1_headers::error::{Error, SerializeResult};
use asn1_headers::header::Header;
use asn1_headers::tag::Tag;
use asn1_headers::writer::DerWrite;
use std::alloc::Global;
use std::borrow::CowSlice;

/// An element whose octets are borrowed or owned (X.690 8.1.1). It is read and written as the [`Any`] that it lends.
///
/// A message with such a field has copies that outlive the octets that it was read from.
#[derive(Debug, Drop, PartialEq, Eq)]
pub struct KeptAny<'a> {
    /// What its identifier octets and its length octets say (8.1.2, 8.1.3).
    pub header: Header<'a>,
    /// Its contents octets (8.1.4), without the 00 00 that ends an indefinite length (8.1.5).
    pub content: CowSlice<'a, u8, Global>,
}

/// The same header, which borrows the identifier octets that it keeps.
fn lent_header<'s>(header: &'s Header<'_>) -> Header<'s>
    ensures parts { IsCopyOfHeader header.now result }
    ensures lent { LendsRawTag result }
{
    let raw_tag = match header.raw_tag() {
        Some(octets) => Some(CowSlice::Borrowed(octets)),
        None => None,
    };
    let lent = Header::new(
        header.class(),
        header.constructed(),
        header.tag(),
        header.length(),
    );
    lent.with_raw_tag(raw_tag)
}

impl<'a> KeptAny<'a> {
    /// An element of this header and these contents octets, as they are held.
    pub fn new(header: Header<'a>, content: CowSlice<'a, u8, Global>) -> Self
        ensures header { result.header ≡ header.entry }
        ensures content { result.content ≡ content.entry }
    {
        KeptAny { header, content }
    }

    /// The element, which borrows its octets.
    pub fn as_any(&self) -> Any<'_>
        ensures header { IsCopyOfHeader self.now.header result.header }
        ensures content { result.content.now ≡ kept_content self.now }
        ensures lent { LendsRawTag result.header }
    {
        Any::new(lent_header(&self.header), self.content.as_slice())
    }
}

impl<'a> From<Any<'a>> for KeptAny<'a> {
    ghost from_gives = { λ any kept. IsTheElement any (Ok (as_element kept)) };

    /// The same element, whose contents octets are borrowed.
    fn from(any: Any<'a>) -> Self {
        KeptAny::new(any.header, CowSlice::Borrowed(any.content))
    }
}

impl DynTagged for KeptAny<'_> {
    ghost dyn_tag = { λ kept. tag_of kept.header };

    fn tag(&self) -> Tag {
        self.header.tag()
    }
}

impl<'a> FromAny<'a> for KeptAny<'a> {
    type Error = Error;

    ghost any_gives = { InnerGives as_element IsTheElement };

    /// The element, whose octets are borrowed.
    #[inline(always)]
    fn try_from_any(_alloc: Global, any: Any<'a>) -> Result<KeptAny<'a>, Error> {
        Ok(KeptAny::from(any))
    }
}

impl CheckDerConstraints for KeptAny<'_> {
    ghost check_gives = { IsDefiniteOr };

    /// Refuses an indefinite length with `IndefiniteLengthUnexpected`.
    fn check_constraints(any: &Any<'_>) -> Result<(), Error>
        ensures { IsDefiniteOr (parts_of any.now) result }
    {
        Any::check_constraints(any)
    }
}

impl DerAutoDerive for KeptAny<'_> {}

impl HasKind for KeptAny<'_> {
    type Kind = ElementKind;
}

impl LawfulElement for KeptAny<'_> {
    ghost element = { kept_element };

    ghost lawful = { kept_element_lawful };

    fn assert_value_valid(&self) {
        let _number = self.header.tag().0;
        assert_octets_valid(self.content.as_slice());
    }
}

impl LawfulCheckBy<ElementKind> for KeptAny<'_> {
    ghost checks_by_kind = { element_checks };
}

impl<'a> LawfulConversion<'a> for KeptAny<'a> {
    ghost converts = { kept_element_converts };
}

/// Each element is in DER form: its contents octets stand as they are.
impl DerElement for KeptAny<'_> {
    ghost each_der = { element_each_der };
}

/// It is written as the element that it lends is by [`ToDer::write_der`], in its raw form too.
impl ToDer for KeptAny<'_> {
    ghost writing = { kept_element_writing };

    fn to_der_len(&self) -> Result<usize, Error> {
        self.as_any().to_der_len()
    }

    fn der_content_len(&self) -> Result<usize, Error> {
        self.as_any().der_content_len()
    }

    fn der_constructed(&self) -> bool {
        self.as_any().der_constructed()
    }

    fn write_der_header<W: DerWrite>(&self, alloc: Global, w: &mut W) -> SerializeResult<usize> {
        self.as_any().write_der_header(alloc, w)
    }

    fn write_der_content<W: DerWrite>(&self, alloc: Global, w: &mut W) -> SerializeResult<usize> {
        self.as_any().write_der_content(alloc, w)
    }

    fn write_der<W: DerWrite>(&self, alloc: Global, w: &mut W) -> SerializeResult<usize> {
        self.as_any().write_der(alloc, w)
    }

    fn prepend_der_content(&self, alloc: Global, buf: &mut DerBuffer) -> SerializeResult<usize> {
        self.as_any().prepend_der_content(alloc, buf)
    }

    fn prepend_der(&self, alloc: Global, buf: &mut DerBuffer) -> SerializeResult<usize> {
        self.as_any().prepend_der(alloc, buf)
    }
}

impl LawfulWrite for KeptAny<'_> {
    ghost lawful_writing = { kept_element_lawful_writing };
}

impl LawfulMember for KeptAny<'_> {
    ghost same = { kept_elements_same };
}
