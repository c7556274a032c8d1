//! How a reading is answered: the value, what follows it and its encoding, or the refusal.
ghost use Rattle.std.specs.Prelude.{◌≡◌, ◌++◌, ℕ, List, Result, Ok, OnOk, length};
ghost use Rattle.asn1_rs.specs.Prelude.{ber_words, MayRefuse, seen, SerializeError, whole_allocates, whole_octets};
ghost use Rattle.asn1_rs.specs.Prelude.{whole_refuses};
ghost use Rattle.asn1_headers.specs.Error.{tells_of_io};
ghost use Rattle.asn1vec_answers.specs.Meaning.{ReadsByEither};
ghost use Rattle.asn1vec_answers.specs.Shown.{AllowsOctets, AllowsRefusals, CameOfWriting, Encoding, Gains, SaysAnswer};
ghost use Rattle.asn1vec_answers.specs.Shown.{IsReadAnswer, ReadingByBer, ReadingByDer, SaysEncoding, SaysWriting};

use crate::names::{push_refusal, push_write_refusal};
use crate::request::Rule;
use crate::text::{push_hexadecimal, push_str};
use asn1_rs::author::ConvertsLeaf;
use asn1_rs::laws::{Grammar, LawfulBer, LawfulDer, LawfulWrite};
use asn1_rs::{
    Error, FromBer, FromDer, ParseResult, SerializeError, SerializeResult, ToDer, Told, read_ber,
    read_der,
};
use std::alloc::{AllocError, Global};
use std::mem;

/// A type whose values are shown in answers. `Encoded` gives it to all that have a writer.
pub(crate) trait Shown {
    /// The text of a value.
    ghost text_of: { Self → List ℕ };

    /// What may be said of the encoding of a value.
    ghost Encodes: { Self → Encoding → Type 0 };

    /// Appends the text of the value.
    fn show(&self, text: &mut Vec<u8>) -> Result<(), AllocError>
        ensures { OnOk result (text.new.items ≡ text.old.items ++ text_of self.now) };

    /// Appends what is said of the encoding of the value. The encoding is written into a buffer first. Where the type
    /// has no writer nothing is appended.
    fn tell_encoding(
        &self,
        alloc: Global,
        buffer: &mut Vec<u8>,
        text: &mut Vec<u8>,
    ) -> Result<(), AllocError>
        ensures { OnOk result
            (Gains text.old.items text.new.items (SaysEncoding (Encodes self.now))) };
}

/// A type whose values are shown and have a writer.
pub(crate) trait Encoded: LawfulWrite {
    /// The text of a value.
    ghost text_of: { Self → List ℕ };

    /// What may be said of the encoding of a value.
    ghost Encodes: { Self → Encoding → Type 0 };

    /// Appends the text of the value.
    fn show(&self, text: &mut Vec<u8>) -> Result<(), AllocError>
        ensures { OnOk result (text.new.items ≡ text.old.items ++ text_of self.now) };

    /// States that what may come of writing the value may be said of its encoding. This is its octets, where the value
    /// has no refusal of its own. It is also a refusal that any such writing may have, or a refusal of the value's own.
    /// Its body only names what the types say of it.
    fn is_told(&self)
        ensures written { AllowsOctets Self.writing self.now (Encodes self.now) }
        ensures refused { AllowsRefusals (MayRefuse (whole_allocates Self.writing)
            (length (whole_octets Self.writing self.now))) (Encodes self.now) }
        ensures own { AllowsRefusals (whole_refuses Self.writing self.now) (Encodes self.now) };
}

impl<T: Encoded> Shown for T {
    ghost text_of = { T.text_of };

    ghost Encodes = { T.Encodes };

    fn show(&self, text: &mut Vec<u8>) -> Result<(), AllocError> {
        Encoded::show(self, text)
    }

    fn tell_encoding(
        &self,
        alloc: Global,
        buffer: &mut Vec<u8>,
        text: &mut Vec<u8>,
    ) -> Result<(), AllocError> {
        self.is_told();
        push_written(alloc, self, buffer, text)
    }
}

/// Whether the refusal tells of a writer that failed.
fn is_io(refusal: &SerializeError) -> bool
    ensures { result ≡ tells_of_io refusal.now }
{
    matches!(refusal, SerializeError::IOError(_))
}

/// Appends what a writing left in a vector, in digits, or why it was refused. Where the vector could
/// not grow there is nothing to say.
fn push_writing(
    text: &mut Vec<u8>,
    octets: &[u8],
    answer: SerializeResult<usize>,
) -> Result<(), AllocError>
    ensures { OnOk result (Gains text.old.items text.new.items (SaysWriting octets.now answer)) }
{
    match answer {
        Ok(_) => push_hexadecimal(text, octets),
        Err(e) => {
            if is_io(&e) {
                return Err(AllocError);
            }
            push_str(text, "err ")?;
            push_write_refusal(text, &e)?;
            Ok(())
        }
    }
}

/// Appends in digits what `write_der` appends for a value, or why writing was refused. The value may be in DER form or
/// not.
pub(crate) fn push_written<T: ToDer>(
    alloc: Global,
    x: &T,
    buffer: &mut Vec<u8>,
    text: &mut Vec<u8>,
) -> Result<(), AllocError>
    requires { T.writing.tells x.now }
    ensures { OnOk result
        (Gains text.old.items text.new.items
        (SaysEncoding (CameOfWriting
        (whole_allocates T.writing)
        (whole_octets T.writing x.now)
        (whole_refuses T.writing x.now)))) }
{
    buffer.clear();
    let mut output = Told::new(mem::replace(buffer, Vec::new(alloc)));
    let answer = x.write_der(alloc, &mut output);
    *buffer = output.into_inner();
    push_str(text, " enc ")?;
    push_writing(text, buffer.as_slice(), answer)?;
    Ok(())
}

/// Appends the answer that shows a value that was read.
fn push_value<T: Shown>(
    alloc: Global,
    x: &T,
    rest: &[u8],
    buffer: &mut Vec<u8>,
    text: &mut Vec<u8>,
) -> Result<(), AllocError>
    ensures { OnOk result (Gains text.old.items text.new.items
        (SaysAnswer T.text_of T.Encodes (Ok (rest.now, x.now)))) }
{
    push_str(text, "ok ")?;
    x.show(text)?;
    push_str(text, " rest ")?;
    push_hexadecimal(text, rest)?;
    x.tell_encoding(alloc, buffer, text)?;
    Ok(())
}

/// Appends what a reader answered, in words.
pub(crate) fn push_reading<'a, T: Shown + Drop>(
    alloc: Global,
    answer: ParseResult<'a, T, Error>,
    buffer: &mut Vec<u8>,
    text: &mut Vec<u8>,
) -> Result<(), AllocError>
    ensures { OnOk result (Gains text.old.items text.new.items
        (SaysAnswer T.text_of T.Encodes (seen answer.entry))) }
{
    match answer {
        Ok((rest, x)) => push_value(alloc, &x, rest, buffer, text),
        Err(refusal) => {
            push_str(text, "err ")?;
            push_refusal(text, &refusal)?;
            Ok(())
        }
    }
}

/// Appends the answer to octets that are read by BER.
pub(crate) fn push_by_ber<'a, T>(
    alloc: Global,
    octets: &'a [u8],
    buffer: &mut Vec<u8>,
    text: &mut Vec<u8>,
) -> Result<(), AllocError>
where
    T: LawfulBer<'a, Error> + Shown + Drop,
    ensures { OnOk result (Gains text.old.items text.new.items (IsReadAnswer
        (ReadingByBer (ber_words T.grammar) T.grammar.value T.grammar.allocates T.ber_gives)
        T.text_of T.Encodes octets.now)) }
{
    push_reading(alloc, read_ber::<T, Error>(alloc, octets), buffer, text)
}

/// Appends the answer to octets that are read by DER.
pub(crate) fn push_by_der<'a, T>(
    alloc: Global,
    octets: &'a [u8],
    buffer: &mut Vec<u8>,
    text: &mut Vec<u8>,
) -> Result<(), AllocError>
where
    T: LawfulDer<'a, Error> + Shown + Drop,
    ensures { OnOk result (Gains text.old.items text.new.items (IsReadAnswer
        (ReadingByDer T.grammar.Der T.grammar.value T.grammar.allocates T.der_gives)
        T.text_of T.Encodes octets.now)) }
{
    push_reading(alloc, read_der::<T, Error>(alloc, octets), buffer, text)
}

/// Appends the answer to octets that are read by either rule.
pub(crate) fn push_by_either<'a, T>(
    alloc: Global,
    rule: Rule,
    octets: &'a [u8],
    buffer: &mut Vec<u8>,
    text: &mut Vec<u8>,
) -> Result<(), AllocError>
where
    T: LawfulBer<'a, Error> + LawfulDer<'a, Error> + Shown + Drop,
    ensures { OnOk result
        (Gains text.old.items text.new.items
        (IsReadAnswer
        (ReadsByEither (ber_words T.grammar) T.grammar.Der T.grammar.value T.grammar.allocates
        T.ber_gives
        T.der_gives rule) T.text_of T.Encodes octets.now)) }
{
    match rule {
        Rule::Ber => push_by_ber::<T>(alloc, octets, buffer, text),
        Rule::Der => push_by_der::<T>(alloc, octets, buffer, text),
    }
}

/// Appends the answer to octets that are read as a leaf type by either rule.
///
/// A caller passes what the type says of itself; here that gives the laws of its readers.
pub(crate) fn push_leaf<'a, T>(
    alloc: Global,
    rule: Rule,
    octets: &'a [u8],
    buffer: &mut Vec<u8>,
    text: &mut Vec<u8>,
) -> Result<(), AllocError>
where
    T: ConvertsLeaf<'a> + Shown + Drop,
    ensures { OnOk result
        (Gains text.old.items text.new.items
        (IsReadAnswer
        (ReadsByEither (ber_words ⟦<T as Grammar>⟧.grammar) ⟦<T as Grammar>⟧.grammar.Der
        ⟦<T as Grammar>⟧.grammar.value ⟦<T as Grammar>⟧.grammar.allocates
        ⟦<T as FromBer<'a, Error>>⟧.ber_gives
        ⟦<T as FromDer<'a, Error>>⟧.der_gives rule) T.text_of T.Encodes octets.now)) }
{
    push_by_either::<T>(alloc, rule, octets, buffer, text)
}
