//! Elements as sequences and sets that are kept as their contents octets.
ghost use Rattle.std.specs.Prelude.{IfOk, Ok};
ghost use Rattle.std.specs.Cow.{IsBorrowedSlice};
ghost use Rattle.std.specs.Fn.{FnOnceReturnsAt, FnOnceTakesAt};
ghost use Rattle.x690.specs.Elements.{IsDerElement};
ghost use Rattle.x690.specs.Faults.{DerElementFault};
ghost use Rattle.x690.specs.Nested.{IsElement, ElementFault};
ghost use Rattle.asn1_headers.specs.Answers.{seen};
ghost use Rattle.asn1_headers.specs.Ber.{max_depth};
ghost use Rattle.asn1_headers.specs.Header.Reading.{der_refusal, ber_refusal};
ghost use Rattle.asn1_rs.specs.Any.{parts_of};
ghost use Rattle.asn1_rs.specs.Kept.{kept_leaf, sequence_leaf, set_leaf, TakesList, HandsListOn, ListThenGives};
ghost use Rattle.asn1_rs.specs.Leaf.{LeafGives};
ghost use Rattle.asn1_rs.specs.Lists.{IsListOr};

use crate::asn1_types::any::Any;
use crate::asn1_types::kept::Kept;
use crate::asn1_types::kept::kinds::{KeptKind, Sequence, Set};
use crate::ber::element_by_ber;
use crate::der::element_by_der;
use crate::kinds::reading::{ConstructedForm, EncodingForm};
use crate::traits::Tagged;
use asn1_headers::error::{Err, Error, ParseResult};
use std::borrow::CowSlice;

/// Looks at the tag number of an element and then at its constructed bit, and hands its contents octets to the closure.
fn list_handed_on<'a, F, T, E>(
    any: Any<'a>,
    rest: &'a [u8],
    number: u32,
    op: F,
) -> ParseResult<'a, T, E>
where
    F: FnOnce(&'a [u8]) -> ParseResult<'a, T, E> + Drop,
    E: From<Error>,
    requires { IsListOr number (parts_of any) (Ok tt) →
        FnOnceTakesAt F.FnOnce op any.content.now }
    ensures { HandsListOn number E.from_gives (FnOnceReturnsAt F.FnOnce op) (parts_of any.entry)
        rest.now (seen result) }
{
    if let Err(e) = ConstructedForm::assert_form(number, &any) {
        return Err(Err::Error(E::from(e)));
    }
    match op(any.content) {
        Ok((_, value)) => Ok((rest, value)),
        Err(e) => Err(e),
    }
}

// Each closure need be callable only at what it is handed, and not at all octets. So one that takes few octets alone
// can be handed on where the octets are few.
impl<'a, K: KeptKind> Kept<'a, K> {
    /// Reads a list of this type by BER, and hands its contents octets to the closure. The rest is the list's; what the
    /// closure leaves over is dropped.
    ///
    /// Refused as an element is; with `UnexpectedTag`; where it is primitive, with `ConstructExpected`; as the closure
    /// refuses.
    pub fn from_ber_and_then<U, F, E>(bytes: &'a [u8], op: F) -> ParseResult<'a, U, E>
    where
        F: FnOnce(&'a [u8]) -> ParseResult<'a, U, E> + Drop,
        E: From<Error>,
        requires { TakesList (IsElement max_depth) (K.Number.TAG).0 F.FnOnce op bytes.now }
        ensures { ListThenGives (IsElement max_depth) (ElementFault max_depth) ber_refusal
            (K.Number.TAG).0 E.from_gives (FnOnceReturnsAt F.FnOnce op) bytes.now (seen result) }
    {
        match element_by_ber(bytes) {
            Ok((rest, any)) => list_handed_on(any, rest, K::Number::TAG.0, op),
            Err(e) => Err(Err::convert(e)),
        }
    }

    /// Reads a list of this type by DER, and goes on as [`Kept::from_ber_and_then`] does.
    pub fn from_der_and_then<U, F, E>(bytes: &'a [u8], op: F) -> ParseResult<'a, U, E>
    where
        F: FnOnce(&'a [u8]) -> ParseResult<'a, U, E> + Drop,
        E: From<Error>,
        requires { TakesList IsDerElement (K.Number.TAG).0 F.FnOnce op bytes.now }
        ensures { ListThenGives IsDerElement DerElementFault der_refusal (K.Number.TAG).0
            E.from_gives (FnOnceReturnsAt F.FnOnce op) bytes.now (seen result) }
    {
        match element_by_der(bytes) {
            Ok((rest, any)) => list_handed_on(any, rest, K::Number::TAG.0, op),
            Err(e) => Err(Err::convert(e)),
        }
    }
}

impl<'a> Any<'a> {
    /// The sequence or the set, of an element that stays.
    #[inline(always)]
    pub(crate) fn as_kept<K: KeptKind>(&self) -> Result<Kept<'a, K>, Error>
        ensures gives { LeafGives (kept_leaf (K.Number.TAG).0) (parts_of self.now) result }
        ensures borrowed { IfOk result (λ x. IsBorrowedSlice x.content) }
    {
        self.assert_number(K::Number::TAG)?;
        self.header.assert_constructed()?;
        Ok(Kept::new(CowSlice::Borrowed(self.content)))
    }
}

/// The contents octets are kept, and borrowed. Refused at another tag number with `UnexpectedTag`, and where the
/// element is primitive with `ConstructExpected`.
impl<'a> Any<'a> {
    /// The sequence.
    pub fn sequence(self) -> Result<Sequence<'a>, Error>
        ensures gives { LeafGives sequence_leaf (parts_of self.entry) result }
        ensures borrowed { IfOk result (λ s. IsBorrowedSlice s.content) }
    {
        self.as_sequence()
    }

    /// The sequence, of an element that stays.
    pub fn as_sequence(&self) -> Result<Sequence<'a>, Error>
        ensures gives { LeafGives sequence_leaf (parts_of self.now) result }
        ensures borrowed { IfOk result (λ s. IsBorrowedSlice s.content) }
    {
        self.as_kept()
    }

    /// The set.
    pub fn set(self) -> Result<Set<'a>, Error>
        ensures gives { LeafGives set_leaf (parts_of self.entry) result }
        ensures borrowed { IfOk result (λ s. IsBorrowedSlice s.content) }
    {
        self.as_set()
    }

    /// The set, of an element that stays.
    pub fn as_set(&self) -> Result<Set<'a>, Error>
        ensures gives { LeafGives set_leaf (parts_of self.now) result }
        ensures borrowed { IfOk result (λ s. IsBorrowedSlice s.content) }
    {
        self.as_kept()
    }
}
