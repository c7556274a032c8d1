//! How a struct comes by [`ToDer`](crate::ToDer). Its fields are counted in their order, and written into a buffer from
//! the last to the first (X.690 8.9).
ghost use Rattle.std.specs.Prelude.{◌≡◌, ◌+◌, ◌++◌, ℕ, length, false, true, IfOk, IfErr, IsErr};
ghost use Rattle.x690.specs.Strict.{header_octets};
ghost use Rattle.asn1_headers.specs.Error.{tells_of_io, written_refusal};
ghost use Rattle.asn1_headers.specs.declared.error.SerializeError.{SerializeError};
ghost use Rattle.asn1_headers.specs.declared.error.Error.{Error};
ghost use Rattle.asn1_headers.specs.Prepended.{Prepended};
ghost use Rattle.asn1_headers.specs.Writer.{Wrote, MayRefuse};
ghost use Rattle.asn1_rs.specs.Fields.{SpecifiesFields, FieldsRefuse, FieldsRefuseCount, taken_in, collected};
ghost use Rattle.asn1_rs.specs.Fields.{fields_octets};
ghost use Rattle.asn1_rs.specs.Structs.Data.{fields_of_struct, writing_of_struct};
ghost use Rattle.asn1_rs.specs.ToDer.{RefusesCount, VectorRefuses};

use crate::header::{element_len, put_behind, put_counted_header};
use crate::kinds::TaggedBy;
use crate::kinds::fields::{Fields, FieldsKind};
use crate::kinds::writing::ToDerBy;
use crate::structs::LawfulStruct;
use asn1_headers::buffer::{DerBuffer, prepend_element};
use asn1_headers::error::{Error, SerializeError, SerializeResult, without_io};
use asn1_headers::header::writing::put_header;
use asn1_headers::tag::Tag;
use asn1_headers::writer::{DerWrite, put_all};
use std::alloc::Global;
use std::mem;

/// What a refused put makes of a count of a value of this tag.
fn refusal_in_counting(tag: Tag, e: SerializeError) -> Error
    ensures { (f : Error) → e ≡ written_refusal f → result ≡ f }
{
    match e {
        SerializeError::ASN1Error(e) => e,
        SerializeError::InvalidLength => Error::InvalidLength,
        SerializeError::OutOfMemory | SerializeError::IOError(_) => Error::OutOfMemory,
        SerializeError::InvalidClass { class: _ } => tag.invalid_value("a class past 3"),
    }
}

/// How many octets the fields of a value have.
fn count_fields<T: LawfulStruct>(value: &T) -> Result<usize, Error>
    ensures count { SpecifiesFields (fields_of_struct T.laws) value.now →
        IfOk result (λ n. n ≡ length (fields_octets (fields_of_struct T.laws) value.now)) }
    ensures refused { SpecifiesFields (fields_of_struct T.laws) value.now →
        IfErr result
        (RefusesCount true (length (fields_octets (fields_of_struct T.laws) value.now))
        (FieldsRefuseCount (fields_of_struct T.laws) value.now)) }
    ensures accepted { (e : Error) → SpecifiesFields (fields_of_struct T.laws) value.now →
        FieldsRefuseCount (fields_of_struct T.laws) value.now e → IsErr result }
{
    let mut fields = Fields::counted();
    match value.put_row(&mut fields) {
        Ok(()) => Ok(fields.count()),
        Err(e) => Err(refusal_in_counting(Tag::Sequence, e)),
    }
}

/// The encodings of the fields of a value, one after another, in a buffer.
fn take_fields<T: LawfulStruct>(value: &T, alloc: Global) -> SerializeResult<Fields>
    ensures octets { SpecifiesFields (fields_of_struct T.laws) value.now → IfOk result
        (λ taken. collected (taken_in taken) ≡ fields_octets (fields_of_struct T.laws) value.now) }
    ensures refused { SpecifiesFields (fields_of_struct T.laws) value.now → IfErr result
        (VectorRefuses (length (fields_octets (fields_of_struct T.laws) value.now))
        (FieldsRefuse (fields_of_struct T.laws) value.now)) }
    ensures accepted { (e : SerializeError) → SpecifiesFields (fields_of_struct T.laws) value.now →
        FieldsRefuse (fields_of_struct T.laws) value.now e → IsErr result }
    ensures uncounted { (e : Error) → SpecifiesFields (fields_of_struct T.laws) value.now →
        FieldsRefuseCount (fields_of_struct T.laws) value.now e → IsErr result }
    ensures memory { IfErr result (λ e. tells_of_io e ≡ false) }
{
    let mut fields = Fields::before(alloc, DerBuffer::new(alloc));
    match value.put_row(&mut fields) {
        Ok(()) => Ok(fields),
        Err(e) => Err(without_io(e)),
    }
}

/// Puts the encodings of the fields before the octets of the buffer, and answers the number of their octets.
///
/// The last field is put in front first, then the one before it. It asks for no memory but what the buffer does.
#[inline(always)]
fn prepend_fields<T: LawfulStruct>(
    value: &T,
    alloc: Global,
    buf: &mut DerBuffer,
) -> SerializeResult<usize>
    ensures prepended { SpecifiesFields (fields_of_struct T.laws) value.now →
        Prepended (fields_octets (fields_of_struct T.laws) value.now) buf.old buf.new result }
    ensures refused { SpecifiesFields (fields_of_struct T.laws) value.now → IfErr result
        (VectorRefuses (length (fields_octets (fields_of_struct T.laws) value.now) + length buf.old)
        (FieldsRefuse (fields_of_struct T.laws) value.now)) }
    ensures accepted { (e : SerializeError) → SpecifiesFields (fields_of_struct T.laws) value.now →
        FieldsRefuse (fields_of_struct T.laws) value.now e → IsErr result }
    ensures uncounted { (e : Error) → SpecifiesFields (fields_of_struct T.laws) value.now →
        FieldsRefuseCount (fields_of_struct T.laws) value.now e → IsErr result }
{
    let held = buf.len();
    let mut fields = Fields::before(alloc, mem::replace(buf, DerBuffer::new(alloc)));
    let answer = value.put_row(&mut fields);
    *buf = fields.into_buffer(alloc);
    match answer {
        Ok(()) => Ok(buf.len().saturating_sub(held)),
        Err(e) => Err(without_io(e)),
    }
}

/// Appends a sequence that holds these contents octets, and answers its length.
fn put_sequence<W: DerWrite>(content: &[u8], w: &mut W) -> SerializeResult<usize>
    ensures wrote { Wrote (header_octets 0 true 16 (length content.now) ++ content.now)
        (W.state w.old) (W.state w.new) result }
    ensures failed { IfErr result (MayRefuse false
        (length (header_octets 0 true 16 (length content.now) ++ content.now))) }
    ensures fits { IfErr result (MayRefuse false 0) }
{
    put_behind(put_header(0, true, 16, content.len(), w), content, w)
}

// This impl names no lifetime, so it may have the constant.
impl<T: LawfulStruct> TaggedBy<FieldsKind> for T {
    const NUMBER: Tag = Tag::Sequence;

    ghost NUMBER = { record { 0 = 16 } };
}

impl<T: LawfulStruct> ToDerBy<FieldsKind> for T {
    ghost writing = { writing_of_struct T.laws };

    fn element_count(&self) -> Result<usize, Error> {
        element_len(Tag::Sequence.0, count_fields(self))
    }

    fn content_count(&self) -> Result<usize, Error> {
        count_fields(self)
    }

    fn is_constructed(&self) -> bool {
        true
    }

    fn put_header<W: DerWrite>(&self, _alloc: Global, w: &mut W) -> SerializeResult<usize> {
        put_counted_header(0, true, Tag::Sequence.0, count_fields(self), w)
    }

    fn put_content<W: DerWrite>(&self, alloc: Global, w: &mut W) -> SerializeResult<usize> {
        let content = take_fields(self, alloc)?;
        put_all(w, content.as_bytes())
    }

    fn put_whole<W: DerWrite>(&self, alloc: Global, w: &mut W) -> SerializeResult<usize> {
        let content = take_fields(self, alloc)?;
        put_sequence(content.as_bytes(), w)
    }

    #[inline(always)]
    fn prepend_content(&self, alloc: Global, buf: &mut DerBuffer) -> SerializeResult<usize> {
        prepend_fields(self, alloc, buf)
    }

    #[inline(always)]
    fn prepend_whole(&self, alloc: Global, buf: &mut DerBuffer) -> SerializeResult<usize> {
        let content = ToDerBy::<FieldsKind>::prepend_content(self, alloc, buf);
        prepend_element(0, true, Tag::Sequence.0, content, buf)
    }
}
