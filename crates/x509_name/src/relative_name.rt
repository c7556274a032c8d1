//! Relative names.
ghost use Rattle.std.specs.Prelude.{◌≡◌, ◌↔◌, ◌+◌, [], ◌∷◌, length, map, true, IsTrue, IfErr, IsErr};
ghost use Rattle.std.specs.Prelude.{MatchOption, MatchResult};
ghost use Rattle.std.proofs.Common.{lit<};
ghost use Rattle.asn1_rs.specs.Prelude.{Error, MayRefuse, Prepended, SerializeError, Wrote};
ghost use Rattle.asn1_rs.specs.ToDer.{RefusedAtOnce, Refuses};
ghost use Rattle.asn1_rs.specs.Laws.Lists.{takes_some};
ghost use Rattle.asn1_rs.specs.Set.{set_content};
ghost use Rattle.x509_name.specs.Attribute.{attribute_octets};
ghost use Rattle.x509_name.specs.Laws.RelativeName.{relative_name_lawful, relative_name_number};
ghost use Rattle.x509_name.specs.Laws.RelativeNameReading.{relative_name_exact};
ghost use Rattle.x509_name.specs.Laws.RelativeNameWriting.{relative_name_lawful_writing};
ghost use Rattle.x509_name.specs.RelativeName.{HasNoAttribute, IsNonEmpty, RefusedForNone, RelativeNameGives};
ghost use Rattle.x509_name.specs.RelativeName.{attributes};
ghost use Rattle.x509_name.specs.RelativeName.{relative_name_element, relative_name_writing};

use crate::attribute::AttributeTypeAndValue;
use crate::header::{element_len, prepend_header, put_header};
use crate::set::{prepend_set, write_set};
use asn1_rs::author::{ElementKind, HasKind, LawfulElement, TagNumber, TaggedAs, refusal_of_count};
use asn1_rs::laws::{LawfulDer, LawfulItem, LawfulTagged, LawfulWrite};
use asn1_rs::{
    DerBuffer, DerWrite, Err, Error, FromDer, ParseResult, SerializeResult, SetOf, Tag, ToDer,
};
use std::alloc::Global;

/// A relative name: a set of attributes, at least one.
#[derive(Debug, Drop)]
pub struct RelativeDistinguishedName<'a> {
    /// The attributes, in any order.
    pub v: Vec<AttributeTypeAndValue<'a>>,
}

/// Whether there are no attributes.
fn is_none(attributes: &[AttributeTypeAndValue<'_>]) -> bool
    ensures { IsTrue result ↔ attributes.now ≡ [] }
{
    attributes.is_empty()
}

impl HasKind for RelativeDistinguishedName<'_> {
    type Kind = ElementKind;
}

impl TaggedAs for RelativeDistinguishedName<'_> {
    type Number = TagNumber<17>;
}

impl LawfulElement for RelativeDistinguishedName<'_> {
    ghost element = { relative_name_element };

    ghost lawful = { relative_name_lawful };

    fn assert_value_valid(&self) {
        self.v.has_value();
    }
}

impl<'a> FromDer<'a, Error> for RelativeDistinguishedName<'a> {
    ghost der_gives = { RelativeNameGives };

    /// Reads a relative name at the front, by DER.
    ///
    /// Refused as a `SetOf` of attributes is, and then, of no attributes, with `InvalidLength`. The attributes stand in
    /// the order in which they were read.
    fn from_der(
        alloc: Global,
        bytes: &'a [u8],
    ) -> ParseResult<'a, RelativeDistinguishedName<'a>, Error> {
        let (rest, set) = SetOf::<AttributeTypeAndValue<'a>>::from_der(alloc, bytes)?;
        let v = set.into_vec();
        if is_none(&v) {
            return Err(Err::Error(Error::InvalidLength));
        }
        Ok((rest, RelativeDistinguishedName { v }))
    }
}

impl<'a> LawfulDer<'a, Error> for RelativeDistinguishedName<'a> {
    ghost der_exact = { λ input answer octets. relative_name_exact input answer };

    ghost der_no_memory = { λ none input answer g. takes_some none };
}

impl LawfulTagged for RelativeDistinguishedName<'_> {
    ghost tag_number = { relative_name_number };

    ghost number_fits = { lit< tt };
}

impl RelativeDistinguishedName<'_> {
    /// Refuses one without attributes.
    pub(crate) fn assert_some(&self) -> Result<(), Error>
        ensures { MatchResult result (λ _. IsNonEmpty (attributes self.now))
            (HasNoAttribute self.now) }
    {
        if is_none(&self.v) {
            return Err(Tag::Set.invalid_value("no attribute"));
        }
        Ok(())
    }
}

/// The attribute of one that has no other.
fn only<'s, 'a>(
    attributes: &'s [AttributeTypeAndValue<'a>],
) -> Option<&'s AttributeTypeAndValue<'a>>
    ensures { MatchOption result Unit (λ a. attributes.now ≡ a.now ∷ []) }
{
    match attributes {
        [attribute] => Some(attribute),
        _ => None,
    }
}

/// Appends the attributes in ascending order, and answers the number of octets. One alone takes no memory.
fn write_some<W: DerWrite>(
    attributes: &[AttributeTypeAndValue<'_>],
    alloc: Global,
    w: &mut W,
) -> SerializeResult<usize>
    ensures wrote { Wrote (set_content attribute_octets attributes.now) (W.state w.old)
        (W.state w.new) result }
    ensures refused { IfErr result
        (MayRefuse true (length (set_content attribute_octets attributes.now))) }
{
    match only(attributes) {
        Some(attribute) => attribute.write_der(alloc, w),
        None => write_set(attributes, alloc, w),
    }
}

/// Puts the attributes before the octets of the buffer in ascending order, and answers the number of their octets.
fn prepend_some(
    attributes: &[AttributeTypeAndValue<'_>],
    alloc: Global,
    buf: &mut DerBuffer,
) -> SerializeResult<usize>
    ensures prepended { Prepended (set_content attribute_octets attributes.now) buf.old buf.new
        result }
    ensures refused { IfErr result
        (MayRefuse true (length (set_content attribute_octets attributes.now) + length buf.old)) }
{
    match only(attributes) {
        Some(attribute) => attribute.prepend_der(alloc, buf),
        None => prepend_set(attributes, alloc, buf),
    }
}

/// Its attributes are written as a `SetOf` of them is. One without attributes is refused with `InvalidValue` of the tag
/// of sets, in counting too.
impl ToDer for RelativeDistinguishedName<'_> {
    ghost writing = { relative_name_writing };

    fn to_der_len(&self) -> Result<usize, Error> {
        let count = self.der_content_len()?;
        element_len(Tag::Set, count)
    }

    fn der_content_len(&self) -> Result<usize, Error> {
        self.assert_some()?;
        self.v.der_content_len()
    }

    fn der_constructed(&self) -> bool {
        true
    }

    fn write_der_header<W: DerWrite>(&self, alloc: Global, w: &mut W) -> SerializeResult<usize> {
        match self.der_content_len() {
            Ok(count) => put_header(Tag::Set, count, alloc, w),
            Err(e) => Err(refusal_of_count(e)),
        }
    }

    /// Appends the contents octets. Where there is no attribute, nothing is appended.
    fn write_der_content<W: DerWrite>(&self, alloc: Global, w: &mut W) -> SerializeResult<usize>
        ensures wrote { relative_name_writing.tells self.now →
            Wrote (relative_name_writing.content self.now) (W.state w.old) (W.state w.new) result }
        ensures refused { relative_name_writing.tells self.now → IfErr result
            (Refuses true (length (relative_name_writing.content self.now))
            (relative_name_writing.content_refuses self.now)) }
        ensures accepted { (e : SerializeError) → relative_name_writing.tells self.now →
            relative_name_writing.content_refuses self.now e → IsErr result }
        ensures uncounted { (e : Error) → relative_name_writing.tells self.now →
            relative_name_writing.count_refuses self.now e → IsErr result }
        ensures first { (e : SerializeError) → relative_name_writing.refuses_first self.now e →
            RefusedAtOnce e (W.state w.old) (W.state w.new) result }
        ensures at_once { attributes self.now ≡ [] → RefusedForNone (W.state w.old) (W.state w.new) result }
    {
        if let Err(e) = self.assert_some() {
            return Err(refusal_of_count(e));
        }
        write_some(&self.v, alloc, w)
    }

    fn prepend_der_content(&self, alloc: Global, buf: &mut DerBuffer) -> SerializeResult<usize> {
        if let Err(e) = self.assert_some() {
            return Err(refusal_of_count(e));
        }
        prepend_some(&self.v, alloc, buf)
    }

    fn prepend_der(&self, alloc: Global, buf: &mut DerBuffer) -> SerializeResult<usize> {
        let after = self.prepend_der_content(alloc, buf)?;
        prepend_header(Tag::Set, after, alloc, buf)
    }
}

impl LawfulWrite for RelativeDistinguishedName<'_> {
    ghost lawful_writing = { relative_name_lawful_writing };
}
