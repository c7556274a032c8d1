//! Optional values: how they are read, and shown as `none`, or `some` and the value.
ghost use Rattle.std.specs.Prelude.{length};
ghost use Rattle.asn1_rs.specs.Prelude.{ber_words, EndsWithin, Exactly, IsTruncatedIdentifier, MayRefuse, seen};
ghost use Rattle.asn1_rs.specs.Prelude.{TellsMemory, whole_allocates, whole_octets, whole_refuses};
ghost use Rattle.x690.specs.Rules.{ber_rule, der_rule};
ghost use Rattle.asn1_rs.specs.Optional.{IsLeftOut, OptionGives, option_writing};
ghost use Rattle.asn1vec_answers.specs.Shown.{AllowsOctets, AllowsRefusals, EncodingOfSome, option_text};

use crate::shown::{Encoded, Shown, push_written};
use crate::text::push_str;
use asn1_rs::laws::{LawfulBer, LawfulDer};
use asn1_rs::{Error, FromBer, FromDer, ParseResult, Tagged};
use std::alloc::{AllocError, Global};

/// Reads an optional value by BER: where one is there, exactly.
pub(crate) fn optional_by_ber<'a, T, E>(
    alloc: Global,
    octets: &'a [u8],
) -> ParseResult<'a, Option<T>, E>
where
    T: LawfulBer<'a, E> + Tagged,
    E: From<Error>,
    ensures { OptionGives (IsLeftOut ber_rule (T.TAG).0)
        (λ o answer. Exactly EndsWithin (ber_words T.grammar) T.grammar.value
        (TellsMemory T.grammar.allocates E.from_gives) o answer × T.ber_gives o answer)
        octets.now (seen result) }
{
    Option::<T>::from_ber(alloc, octets)
}

/// Reads one by DER.
pub(crate) fn optional_by_der<'a, T, E>(
    alloc: Global,
    octets: &'a [u8],
) -> ParseResult<'a, Option<T>, E>
where
    T: LawfulDer<'a, E> + Tagged,
    E: From<Error>,
    ensures { OptionGives (IsLeftOut der_rule (T.TAG).0)
        (λ o answer. Exactly IsTruncatedIdentifier T.grammar.Der T.grammar.value
        (TellsMemory T.grammar.allocates E.from_gives) o answer × T.der_gives o answer)
        octets.now (seen result) }
{
    Option::<T>::from_der(alloc, octets)
}

/// States of the value that is held what its type says of its writing.
fn is_told_if_held<T: Encoded>(x: &Option<T>)
    ensures written { AllowsOctets (option_writing T.writing) x.now
        (EncodingOfSome (whole_allocates T.writing) T.Encodes x.now) }
    ensures refused { AllowsRefusals (MayRefuse (whole_allocates T.writing)
        (length (whole_octets (option_writing T.writing) x.now)))
        (EncodingOfSome (whole_allocates T.writing) T.Encodes x.now) }
    ensures own { AllowsRefusals (whole_refuses (option_writing T.writing) x.now)
        (EncodingOfSome (whole_allocates T.writing) T.Encodes x.now) }
{
    match x {
        Some(value) => value.is_told(),
        None => {}
    }
}

/// None is written as no octets.
impl<T: Encoded> Shown for Option<T> {
    ghost text_of = { option_text T.text_of };

    ghost Encodes = { EncodingOfSome
        (whole_allocates T.writing) T.Encodes };

    fn show(&self, text: &mut Vec<u8>) -> Result<(), AllocError> {
        match self {
            Some(value) => {
                push_str(text, "some ")?;
                Encoded::show(value, text)
            }
            None => push_str(text, "none"),
        }
    }

    fn tell_encoding(
        &self,
        alloc: Global,
        buffer: &mut Vec<u8>,
        text: &mut Vec<u8>,
    ) -> Result<(), AllocError> {
        is_told_if_held(self);
        push_written(alloc, self, buffer, text)
    }
}
