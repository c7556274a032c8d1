//! How the contents octets of an embedded presentation data value are read.
ghost use Rattle.std.specs.Prelude.{MatchResult};
ghost use Rattle.asn1_rs.specs.Any.{parts_of};
ghost use Rattle.asn1_rs.specs.EmbeddedPdv.{BeginsWithParts, BeginsWithTwo, BorrowsParts, HasInner, HasNoInner};
ghost use Rattle.asn1_rs.specs.EmbeddedPdv.{HoldsElement, HoldsNone, Identifies, IsData, IsIdentified, NoData};
ghost use Rattle.asn1_rs.specs.EmbeddedPdv.{NoFirstElement, NotIdentified, NotTwo, PdvGives, SaysNone, has_context_tag};
ghost use Rattle.asn1_rs.specs.EmbeddedPdv.{identification_of};

use crate::asn1_types::any::Any;
use crate::asn1_types::embedded_pdv::{EmbeddedPdv, PdvIdentification};
use crate::asn1_types::integer::octets::Integer;
use crate::asn1_types::oid::Oid;
use crate::ber::element_by_ber;
use asn1_headers::error::Error;
use asn1_headers::tag::Tag;
use std::borrow::CowSlice;

/// The element at the front of contents octets, by BER, and what follows it there.
// Each may nest as deep as any.
fn element_within(octets: &[u8]) -> Result<(&[u8], Any<'_>), Error>
    ensures { MatchResult result
        (λ x. BeginsWithParts octets.now (parts_of x.1) x.0.now)
        (NoFirstElement octets.now) }
{
    Ok(element_by_ber(octets)?)
}

/// Two elements in turn.
fn two_within(octets: &[u8]) -> Result<(Any<'_>, Any<'_>), Error>
    ensures { MatchResult result
        (λ x. BeginsWithTwo octets.now (parts_of x.0) (parts_of x.1))
        (NotTwo octets.now) }
{
    let (rest, first) = element_within(octets)?;
    let (_, second) = element_within(rest)?;
    Ok((first, second))
}

/// The identification that an element says, by its tag number alone.
fn identification<'a>(inner: &Any<'a>) -> Result<PdvIdentification<'a>, Error>
    ensures { MatchResult result
        (λ x. Identifies (parts_of inner.now) (identification_of x) × BorrowsParts x)
        (SaysNone (parts_of inner.now)) }
{
    let content = inner.content;
    match inner.tag().0 {
        0 => {
            let (s_abstract, s_transfer) = two_within(content)?;
            Ok(PdvIdentification::Syntaxes {
                s_abstract: Oid::new(CowSlice::Borrowed(s_abstract.content)),
                s_transfer: Oid::new(CowSlice::Borrowed(s_transfer.content)),
            })
        }
        1 => Ok(PdvIdentification::Syntax(Oid::new(CowSlice::Borrowed(content)))),
        2 => Ok(PdvIdentification::PresentationContextId(Integer::new(content))),
        3 => {
            let (context_id, syntax) = two_within(content)?;
            Ok(PdvIdentification::ContextNegotiation {
                presentation_context_id: Integer::new(context_id.content),
                presentation_syntax: Oid::new(CowSlice::Borrowed(syntax.content)),
            })
        }
        4 => Ok(PdvIdentification::TransferSyntax(Oid::new(CowSlice::Borrowed(content)))),
        5 => Ok(PdvIdentification::Fixed),
        _ => Err(inner.tag().invalid_value("not an identification")),
    }
}

/// Refuses another class than context-specific, and then another tag number.
fn assert_tag(any: &Any<'_>, number: u32) -> Result<(), Error>
    ensures { has_context_tag number (parts_of any.now) result }
{
    any.assert_class_number(2)?;
    any.assert_number(Tag(number))
}

/// The element in one of the class context-specific and the tag number 0.
fn inner_of<'a>(outer: &Any<'a>) -> Result<Any<'a>, Error>
    ensures { MatchResult result
        (λ x. HasInner (parts_of outer.now) (parts_of x))
        (HasNoInner (parts_of outer.now)) }
{
    let (_, inner) = element_within(outer.content)?;
    assert_tag(outer, 0)?;
    Ok(inner)
}

/// The element that the first one in the contents octets holds, and what follows that one.
fn held_within(content: &[u8]) -> Result<(&[u8], Any<'_>), Error>
    ensures { MatchResult result
        (λ x. HoldsElement content.now (parts_of x.1) x.0.now)
        (HoldsNone content.now) }
{
    let (behind, outer) = element_within(content)?;
    Ok((behind, inner_of(&outer)?))
}

/// The identification at the front of the contents octets, and what follows its element.
fn identified(content: &[u8]) -> Result<(&[u8], PdvIdentification<'_>), Error>
    ensures { MatchResult result
        (λ x. IsIdentified content.now (identification_of x.1) x.0.now × BorrowsParts x.1)
        (NotIdentified content.now) }
{
    let (behind, inner) = held_within(content)?;
    Ok((behind, identification(&inner)?))
}

/// The data value at the front of what follows the identification.
fn data_value(octets: &[u8]) -> Result<&[u8], Error>
    ensures { MatchResult result (λ value. IsData octets.now value.now) (NoData octets.now) }
{
    let (_, any) = element_within(octets)?;
    assert_tag(&any, 2)?;
    Ok(any.content)
}

impl<'a> Any<'a> {
    /// The embedded presentation data value that the contents octets say, by BER, whatever the tag of the element, and
    /// whether it is primitive or constructed. What follows the data value is not looked at.
    ///
    /// The first element there holds the one that says the identification. Where one of the two is not there, it is
    /// refused as an element is, with `Error::Incomplete` where octets are missing. Another class than context-specific
    /// is refused with `UnexpectedClass`, another tag number than 0 with `UnexpectedTag`. A tag number within above 5
    /// is refused with `InvalidValue`, and parts of the identification that are not there as elements are. Then the
    /// data value is refused so, at another tag number than 2.
    pub fn embedded_pdv(self) -> Result<EmbeddedPdv<'a>, Error>
        ensures { PdvGives (parts_of self.entry) result }
    {
        self.as_embedded_pdv()
    }

    /// The embedded presentation data value, of an element that stays.
    #[inline(always)]
    pub fn as_embedded_pdv(&self) -> Result<EmbeddedPdv<'a>, Error>
        ensures { PdvGives (parts_of self.now) result }
    {
        let (rest, identification) = identified(self.content)?;
        let data_value = data_value(rest)?;
        Ok(EmbeddedPdv {
            identification,
            data_value_descriptor: None,
            data_value,
        })
    }
}
