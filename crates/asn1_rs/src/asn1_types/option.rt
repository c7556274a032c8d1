//! Optional values: an element that may be left out, told by its tag number.
//!
//! An `Option` is no lawful item: its word would be empty where it holds nothing, so items of a list could not be told
//! apart. Its laws speak of the value that it holds, of what stands in its place, and of refusals.
ghost use Rattle.std.specs.Prelude.{◌≡◌, ◌≢◌, ◌↔◌, Bool, false, IsTrue};
ghost use Rattle.x690.specs.Identifiers.{IsTruncatedIdentifier};
ghost use Rattle.x690.specs.Elements.{IsDerElement};
ghost use Rattle.x690.specs.Nested.{IsElement};
ghost use Rattle.x690.specs.Rules.{Rule, der_rule, ber_rule};
ghost use Rattle.x690.specs.Faults.{Violation};
ghost use Rattle.asn1_headers.specs.declared.error.Error.{Error};
ghost use Rattle.asn1_headers.specs.Answers.{seen, TellsMemory};
ghost use Rattle.asn1_rs.specs.Any.{IsTheElement, IsDefiniteOr};
ghost use Rattle.asn1_rs.specs.Faults.{TellsHeaderFirst};
ghost use Rattle.asn1_headers.specs.Ber.{max_depth, EndsWithin};
ghost use Rattle.asn1_headers.specs.Header.Reading.{refusal_of, ber_violation, der_violation, HeaderGives};
ghost use Rattle.asn1_rs.specs.Grammar.Item.{ber_words};
ghost use Rattle.asn1_rs.specs.Optional.{IsLeftOut, IsAtEnd, OptionGives, ReadsSomeBack, ReadsNoneBefore};
ghost use Rattle.asn1_rs.specs.Optional.{ReadsNoneAtEnd, in_some, some_or, is_of_another_tag, IsWithoutRawTag, none_or};
ghost use Rattle.asn1_rs.specs.Optional.{NoneOrConverted, option_writing, RefusesAsSome, StaysIn};
ghost use Rattle.asn1_rs.specs.Traits.{BerGives, DerGives};

use crate::asn1_types::any::Any;
use crate::laws::{LawfulBer, LawfulDer, LawfulTagged};
use crate::to_der::ToDer;
use crate::traits::{CheckDerConstraints, DynTagged, FromAny, FromBer, FromDer, Tagged};
use asn1_headers::buffer::DerBuffer;
use asn1_headers::error::{Error, ParseResult, SerializeResult};
use asn1_headers::header::Header;
use asn1_headers::header::reading::{header_by_ber, header_by_der};
use asn1_headers::tag::Tag;
use asn1_headers::writer::DerWrite;
use std::alloc::Global;

/// Whether a value with this tag number is left out of the octets, at whose front a header was read. It is where there
/// are no octets, or the header has another tag number.
#[inline(always)]
fn is_left_out(tag: Tag, octets: &[u8], read: ParseResult<'_, Header<'_>, Error>) -> bool
    ensures { (rule : Rule) (refuses : Violation → Error)
        → HeaderGives rule (refusal_of refuses) octets.now (seen read.entry)
        → IsTrue result ↔ IsLeftOut rule tag.0 octets.now }
{
    match read {
        Ok((_, header)) => header.tag().0 != tag.0,
        Err(_) => octets.is_empty(),
    }
}

/// The whole answer, an Ok in Some.
#[inline(always)]
pub(crate) fn held<'a, T, E>(answer: ParseResult<'a, T, E>) -> ParseResult<'a, Option<T>, E>
    ensures { seen result ≡ in_some (seen answer.entry) }
{
    match answer {
        Ok((rest, value)) => Ok((rest, Some(value))),
        Err(refusal) => Err(refusal),
    }
}

/// Reads a value, or none where it is left out. It is left out where there are no octets, or a header by BER of another
/// tag number begins them. Nothing is consumed then. The class is not looked at, and octets that no header begins are
/// refused as the type refuses them.
// A reader of its own and no conversion. The header before a value tells whether it is left out, and no element has the
// value None. It reads at each error type that the value's reader has.
impl<'a, T: FromBer<'a, E> + Tagged, E: From<Error>> FromBer<'a, E> for Option<T> {
    ghost ber_gives = { OptionGives (IsLeftOut ber_rule (T.TAG).0) T.ber_gives };

    fn from_ber(alloc: Global, bytes: &'a [u8]) -> ParseResult<'a, Option<T>, E> {
        if is_left_out(T::TAG, bytes, header_by_ber(bytes)) {
            return Ok((bytes, None));
        }
        held(T::from_ber(alloc, bytes))
    }
}

/// As by BER, where a header by DER of another tag number begins the octets.
impl<'a, T: FromDer<'a, E> + Tagged, E: From<Error>> FromDer<'a, E> for Option<T> {
    ghost der_gives = { OptionGives (IsLeftOut der_rule (T.TAG).0) T.der_gives };

    fn from_der(alloc: Global, bytes: &'a [u8]) -> ParseResult<'a, Option<T>, E> {
        if is_left_out(T::TAG, bytes, header_by_der(bytes)) {
            return Ok((bytes, None));
        }
        held(T::from_der(alloc, bytes))
    }
}

/// Reads an element of any tag number, or none where there are no octets.
impl<'a> FromBer<'a, Error> for Option<Any<'a>> {
    ghost ber_gives = { OptionGives IsAtEnd (BerGives IsTheElement (λ e f. f ≡ e)) };

    fn from_ber(alloc: Global, bytes: &'a [u8]) -> ParseResult<'a, Option<Any<'a>>, Error> {
        if bytes.is_empty() {
            return Ok((bytes, None));
        }
        held(Any::from_ber(alloc, bytes))
    }
}

/// Reads an element of any tag number, or none where there are no octets.
impl<'a> FromDer<'a, Error> for Option<Any<'a>> {
    ghost der_gives = { OptionGives IsAtEnd
        (DerGives IsDefiniteOr IsTheElement (λ e f. f ≡ e)) };

    fn from_der(alloc: Global, bytes: &'a [u8]) -> ParseResult<'a, Option<Any<'a>>, Error> {
        if bytes.is_empty() {
            return Ok((bytes, None));
        }
        held(Any::from_der(alloc, bytes))
    }
}

/// An error that may tell of another tag number than the one that was expected.
// So `as_optional` can have each error type that a conversion has.
pub trait TagRefusal {
    /// It tells of that.
    ghost of_another_tag: { Self → Bool };

    /// Whether it tells of that.
    fn is_of_another_tag(&self) -> bool
        ensures { result ≡ of_another_tag self.now };
}

impl TagRefusal for Error {
    ghost of_another_tag = { is_of_another_tag };

    fn is_of_another_tag(&self) -> bool {
        matches!(self, Error::UnexpectedTag { .. })
    }
}

/// The same element, whose header keeps no identifier octets.
// They may be owned, and a copy may be refused memory.
pub(crate) fn without_raw_tag<'a>(any: &Any<'a>) -> Any<'a>
    ensures { IsWithoutRawTag any.now result }
{
    let header = &any.header;
    Any::new(
        Header::new(
            header.class(),
            header.constructed(),
            header.tag(),
            header.length(),
        ),
        any.content,
    )
}

/// None in the place of an error of another tag number, and an Ok in Some.
fn none_of_another_tag<T, E: TagRefusal + Drop>(answer: Result<T, E>) -> Result<Option<T>, E>
    ensures { result ≡ none_or E.of_another_tag answer }
{
    match answer {
        Ok(value) => Ok(Some(value)),
        Err(e) if e.is_of_another_tag() => Ok(None),
        Err(e) => Err(e),
    }
}

impl<'a> Any<'a> {
    /// The value of an element that stays, or none where its conversion is refused with `UnexpectedTag`. That may be
    /// for its own tag number, or for that of an item in it. Every other refusal is passed on.
    ///
    /// What is converted has the parts of the element and its contents octets, without the identifier octets that its
    /// header keeps.
    pub fn as_optional<T, E>(&self, alloc: Global) -> Result<Option<T>, E>
    where
        T: FromAny<'a, Error = E>,
        E: TagRefusal + Drop,
        ensures { NoneOrConverted T.any_gives E.of_another_tag self.now result }
    {
        none_of_another_tag(T::try_from_any(alloc, without_raw_tag(self)))
    }
}

impl<T: CheckDerConstraints> CheckDerConstraints for Option<T> {
    ghost check_gives = { T.check_gives };

    /// The check of the type of the value.
    fn check_constraints(any: &Any<'_>) -> Result<(), Error> {
        T::check_constraints(any)
    }
}

impl<T: DynTagged> DynTagged for Option<T> {
    ghost dyn_tag = { some_or (record { 0 = 0 }) T.dyn_tag };

    /// The tag number of the value that is held; 0 where none is.
    fn tag(&self) -> Tag {
        match self {
            Some(x) => x.tag(),
            None => Tag(0),
        }
    }
}

/// An optional value is counted and written as what it holds. None has no octets. Its raw form is the DER form.
// That is so of a `Boolean` too: a raw form is the DER form where a type does not say another.
impl<T: ToDer> ToDer for Option<T> {
    ghost writing = { option_writing T.writing };

    fn to_der_len(&self) -> Result<usize, Error> {
        match self {
            Some(x) => x.to_der_len(),
            None => Ok(0),
        }
    }

    fn der_content_len(&self) -> Result<usize, Error> {
        match self {
            Some(x) => x.der_content_len(),
            None => Ok(0),
        }
    }

    fn der_constructed(&self) -> bool {
        match self {
            Some(x) => x.der_constructed(),
            None => false,
        }
    }

    fn write_der_header<W: DerWrite>(&self, alloc: Global, w: &mut W) -> SerializeResult<usize> {
        match self {
            Some(x) => x.write_der_header(alloc, w),
            None => Ok(0),
        }
    }

    fn write_der_content<W: DerWrite>(&self, alloc: Global, w: &mut W) -> SerializeResult<usize> {
        match self {
            Some(x) => x.write_der_content(alloc, w),
            None => Ok(0),
        }
    }

    fn write_der<W: DerWrite>(&self, alloc: Global, w: &mut W) -> SerializeResult<usize> {
        match self {
            Some(x) => x.write_der(alloc, w),
            None => Ok(0),
        }
    }

    fn prepend_der_content(&self, alloc: Global, buf: &mut DerBuffer) -> SerializeResult<usize> {
        match self {
            Some(x) => x.prepend_der_content(alloc, buf),
            None => Ok(0),
        }
    }

    fn prepend_der(&self, alloc: Global, buf: &mut DerBuffer) -> SerializeResult<usize> {
        match self {
            Some(x) => x.prepend_der(alloc, buf),
            None => Ok(0),
        }
    }
}

/// The strict encoding of what a Some holds is read back as that Some by BER, before any rest.
///
/// What the reader of `Option<T>` may answer is what its `ber_gives` says. Where the type allocates, out of memory may
/// be reported in its place. The reader by DER is not asked for.
pub fn options_are_read_back_by_ber<'a, T, E>()
where
    T: LawfulBer<'a, E> + LawfulTagged,
    E: From<Error>,
    ensures { ReadsSomeBack (OptionGives (IsLeftOut ber_rule (T.TAG).0) T.ber_gives)
        T.grammar.Form T.grammar.value (TellsMemory T.grammar.allocates E.from_gives) }
{}

/// The strict encoding of what a Some holds is read back as that Some by DER, before any rest. The reader by BER is not
/// asked for.
pub fn options_are_read_back_by_der<'a, T, E>()
where
    T: LawfulDer<'a, E> + LawfulTagged,
    E: From<Error>,
    ensures { ReadsSomeBack (OptionGives (IsLeftOut der_rule (T.TAG).0) T.der_gives)
        T.grammar.Form T.grammar.value (TellsMemory T.grammar.allocates E.from_gives) }
{}

/// By BER None is read, and nothing consumed, where there are no octets. So it is before the strict encoding of a `U`
/// whose tag number is another one.
pub fn options_are_left_out_by_ber<'a, T, U, E>()
where
    T: FromBer<'a, E> + Tagged,
    U: LawfulTagged,
    E: From<Error>,
    ensures before { (U.TAG).0 ≢ (T.TAG).0 →
        ReadsNoneBefore (OptionGives (IsLeftOut ber_rule (T.TAG).0) T.ber_gives) U.grammar.Form }
    ensures at_end { ReadsNoneAtEnd (OptionGives (IsLeftOut ber_rule (T.TAG).0) T.ber_gives) }
{}

/// By DER None is read so.
pub fn options_are_left_out_by_der<'a, T, U, E>()
where
    T: FromDer<'a, E> + Tagged,
    U: LawfulTagged,
    E: From<Error>,
    ensures before { (U.TAG).0 ≢ (T.TAG).0 →
        ReadsNoneBefore (OptionGives (IsLeftOut der_rule (T.TAG).0) T.der_gives) U.grammar.Form }
    ensures at_end { ReadsNoneAtEnd (OptionGives (IsLeftOut der_rule (T.TAG).0) T.der_gives) }
{}

/// What an `Option<T>` is refused with by BER, `T` refuses the same octets with, and it is final. No word of `T` begins
/// them, nor more octets of which the refusal speaks.
///
/// Nor is `None` read of such octets, where `T` refuses as the header is refused what no header begins.
/// [`faults_come_first_by_ber`](crate::faults_come_first_by_ber) tells so of each type that an element converts to. A
/// reader of another make may go by the identifier octets alone. One that refuses 04 for ever is left out of 04 00.
pub fn options_are_refused_by_ber<'a, T, E>()
where
    T: LawfulBer<'a, E> + Tagged,
    E: From<Error>,
    ensures last { RefusesAsSome (OptionGives (IsLeftOut ber_rule (T.TAG).0) T.ber_gives)
        T.ber_gives
        EndsWithin (ber_words T.grammar) (TellsMemory T.grammar.allocates E.from_gives) }
    ensures stays { TellsHeaderFirst ber_rule ber_violation E.from_gives T.ber_gives →
        StaysIn (IsLeftOut ber_rule (T.TAG).0)
        (OptionGives (IsLeftOut ber_rule (T.TAG).0) T.ber_gives) }
{}

/// What an `Option<T>` is refused with by DER is such a refusal, too.
pub fn options_are_refused_by_der<'a, T, E>()
where
    T: LawfulDer<'a, E> + Tagged,
    E: From<Error>,
    ensures last { RefusesAsSome (OptionGives (IsLeftOut der_rule (T.TAG).0) T.der_gives)
        T.der_gives
        IsTruncatedIdentifier T.grammar.Der (TellsMemory T.grammar.allocates E.from_gives) }
    ensures stays { TellsHeaderFirst der_rule der_violation E.from_gives T.der_gives →
        StaysIn (IsLeftOut der_rule (T.TAG).0)
        (OptionGives (IsLeftOut der_rule (T.TAG).0) T.der_gives) }
{}

/// What an `Option<Any>` is refused with, `Any` refuses the same octets with, and it is final. `None` is read of no
/// octets that begin with these.
pub fn optional_elements_are_refused()
    ensures ber { RefusesAsSome (OptionGives IsAtEnd (BerGives IsTheElement (λ e f. f ≡ e)))
        (BerGives IsTheElement (λ e f. f ≡ e)) EndsWithin (IsElement max_depth) (λ r. ⊥) }
    ensures der { RefusesAsSome (OptionGives IsAtEnd
        (DerGives IsDefiniteOr IsTheElement (λ e f. f ≡ e)))
        (DerGives IsDefiniteOr IsTheElement (λ e f. f ≡ e)) IsTruncatedIdentifier IsDerElement (λ r. ⊥) }
    ensures ber_stays { StaysIn IsAtEnd (OptionGives IsAtEnd (BerGives IsTheElement (λ e f. f ≡ e))) }
    ensures der_stays { StaysIn IsAtEnd
        (OptionGives IsAtEnd (DerGives IsDefiniteOr IsTheElement (λ e f. f ≡ e))) }
{}
