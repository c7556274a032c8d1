//! The trait of values that are written by DER.
ghost use Rattle.std.specs.Prelude.{◌≡◌, ◌≢◌, ◌+◌, ℕ, true, false, List, length, Ok, Err, IfOk, IfErr, IsErr};
ghost use Rattle.std.specs.Io.KnownBytes.{Appends};
ghost use Rattle.asn1_headers.specs.Writer.{Wrote};
ghost use Rattle.asn1_headers.specs.Prepended.{Prepended};
ghost use Rattle.asn1_headers.specs.declared.error.SerializeError.TheVariants as serialize_errors;
ghost use Rattle.asn1_rs.specs.ToDer.{unspecified, Refuses, RefusesCount, VectorRefuses, IsRefusedAtOnce, RefusedAtOnce};
ghost use Rattle.asn1_rs.specs.ToDer.{KeepsOrMayRefuse, Writing, whole_allocates, whole_octets, whole_refuses};
ghost use Rattle.asn1_headers.specs.Error.{vector_refusal, tells_of_io};
ghost use Rattle.asn1_headers.specs.declared.error.SerializeError.{SerializeError};
ghost use Rattle.asn1_headers.specs.declared.error.Error.{Error};

use crate::traits::DynTagged;
use asn1_headers::buffer::{DerBuffer, prepend_behind, prepend_octets};
use asn1_headers::error::{Error, SerializeError, SerializeResult, without_io};
use asn1_headers::writer::{DerWrite, Sink, Told, add_written, put_all};
use std::alloc::Global;

/// A value that is written by DER.
///
/// A type that leaves out its ghost members is written all the same, and nothing is claimed of it.
pub trait ToDer: DynTagged {
    /// What is written for the values, and what refuses them. It has for which of them that is told, the octets of
    /// header and contents, and the constructed bit. It has the refusals of counts, header and contents octets that are
    /// the value's own, which are neither its length nor out of memory. It has those that come before all others, and
    /// where memory is asked for.
    ///
    /// A value with a refusal of its counts is neither counted nor written. Of one with a refusal of its header nothing
    /// is appended. Of one with a refusal of its contents octets a beginning of the encoding may be.
    ghost writing: { Writing Self } = { unspecified };

    /// The raw form is the DER form.
    ghost raw_is_der: { Self → Type 0 } = { λ _. Unit {0} };

    /// How many octets `write_der` appends.
    fn to_der_len(&self) -> Result<usize, Error>
        ensures count { writing.tells self.now →
            IfOk result (λ n. n ≡ length (whole_octets writing self.now)) }
        ensures refused { writing.tells self.now →
            IfErr result (RefusesCount writing.count_allocates
            (length (whole_octets writing self.now)) (writing.count_refuses self.now)) }
        ensures accepted { (e : Error) → writing.tells self.now → writing.count_refuses self.now e →
            IsErr result };

    /// How many contents octets are appended.
    fn der_content_len(&self) -> Result<usize, Error>
        ensures count { writing.tells self.now →
            IfOk result (λ n. n ≡ length (writing.content self.now)) }
        ensures refused { writing.tells self.now →
            IfErr result (RefusesCount writing.count_allocates
            (length (writing.content self.now)) (writing.count_refuses self.now)) }
        ensures accepted { (e : Error) → writing.tells self.now → writing.count_refuses self.now e →
            IsErr result };

    /// The constructed bit of the encoding. Most types answer whether their tag is that of sequence or set.
    // No body here could carry the clause.
    fn der_constructed(&self) -> bool
        ensures { writing.tells self.now → result ≡ writing.constructed self.now };

    /// Appends the identifier octets and the length octets, and answers their number.
    fn write_der_header<W: DerWrite>(&self, alloc: Global, w: &mut W) -> SerializeResult<usize>
        ensures wrote { writing.tells self.now →
            Wrote (writing.header self.now) (W.state w.old) (W.state w.new) result }
        ensures refused { writing.tells self.now →
            IfErr result (Refuses writing.count_allocates
            (length (whole_octets writing self.now)) (writing.header_refuses self.now)) }
        ensures at_once { (e : SerializeError) → writing.tells self.now →
            writing.header_refuses self.now e →
            IsRefusedAtOnce writing.count_allocates
            (length (whole_octets writing self.now)) (writing.header_refuses self.now)
            (W.state w.old) (W.state w.new) result }
        ensures first { (e : SerializeError) → writing.refuses_first self.now e →
            RefusedAtOnce e (W.state w.old) (W.state w.new) result };

    /// Appends the contents octets, and answers their number.
    fn write_der_content<W: DerWrite>(&self, alloc: Global, w: &mut W) -> SerializeResult<usize>
        ensures wrote { writing.tells self.now →
            Wrote (writing.content self.now) (W.state w.old) (W.state w.new) result }
        ensures refused { writing.tells self.now →
            IfErr result (Refuses writing.content_allocates
            (length (writing.content self.now)) (writing.content_refuses self.now)) }
        ensures accepted { (e : SerializeError) → writing.tells self.now →
            writing.content_refuses self.now e →
            IsErr result }
        ensures uncounted { (e : Error) → writing.tells self.now →
            writing.count_refuses self.now e → IsErr result }
        ensures first { (e : SerializeError) → writing.refuses_first self.now e →
            RefusedAtOnce e (W.state w.old) (W.state w.new) result };

    /// Appends the encoding, and answers its length.
    ///
    /// Refused with `IOError` only where the writer failed, or was marked before. Refused with `InvalidLength` only
    /// where the length passes `usize`, or the value itself is so refused. A value that is refused for what it is, or
    /// for its length, leaves the writer as it was. After any other refusal a beginning of the encoding was appended.
    // This body is proved once for all types, also for those that need no memory (`Header`, `Length`). So where its
    // buffer cannot grow it goes forward, and does not answer out of memory. Before that it writes to a sink, where a
    // value's own refusal shows.
    #[inline(always)]
    fn write_der<W: DerWrite>(&self, alloc: Global, w: &mut W) -> SerializeResult<usize>
        ensures wrote { writing.tells self.now →
            Wrote (whole_octets writing self.now)
            (W.state w.old) (W.state w.new) result }
        ensures refused { writing.tells self.now →
            IfErr result (Refuses (whole_allocates writing)
            (length (whole_octets writing self.now))
            (whole_refuses writing self.now)) }
        ensures accepted { (e : SerializeError) → writing.tells self.now →
            writing.content_refuses self.now e →
            IsErr result }
        ensures uncounted { (e : Error) → writing.tells self.now →
            writing.count_refuses self.now e → IsErr result }
        ensures at_once { (e : SerializeError) → writing.tells self.now →
            writing.header_refuses self.now e →
            IsRefusedAtOnce (whole_allocates writing)
            (length (whole_octets writing self.now))
            (whole_refuses writing self.now)
            (W.state w.old) (W.state w.new) result }
        ensures first { (e : SerializeError) → writing.refuses_first self.now e →
            RefusedAtOnce e (W.state w.old) (W.state w.new) result }
        ensures kept { writing.tells self.now →
            KeepsOrMayRefuse (whole_allocates writing) (W.state w.old) (W.state w.new) result }
    {
        let mut buf = DerBuffer::new(alloc);
        if stands(self.prepend_der(alloc, &mut buf))? {
            return put_all(w, buf.as_bytes());
        }
        let mut sink = Sink;
        let header = self.write_der_header(alloc, &mut sink)?;
        let content = self.write_der_content(alloc, &mut sink)?;
        add_written(header, content)?;
        let before = self.write_der_header(alloc, w)?;
        let after = self.write_der_content(alloc, w)?;
        add_written(before, after)
    }

    /// Puts the contents octets before those of the buffer, and answers their number.
    ///
    /// Refused as `write_der_content` into a vector is, and then an end part of them may stand in the buffer.
    fn prepend_der_content(&self, alloc: Global, buf: &mut DerBuffer) -> SerializeResult<usize>
        ensures prepended { writing.tells self.now →
            Prepended (writing.content self.now) buf.old buf.new result }
        ensures refused { writing.tells self.now →
            IfErr result (VectorRefuses (length (writing.content self.now) + length buf.old)
            (writing.content_refuses self.now)) }
        ensures accepted { (e : SerializeError) → writing.tells self.now →
            writing.content_refuses self.now e → IsErr result }
        ensures uncounted { (e : Error) → writing.tells self.now →
            writing.count_refuses self.now e → IsErr result }
        ensures first { (e : SerializeError) → writing.refuses_first self.now e →
            (result ≡ Err (vector_refusal e)) × (buf.new ≡ buf.old) }
    {
        let mut w = Told::new(Vec::new(alloc));
        match self.write_der_content(alloc, &mut w) {
            Ok(_) => prepend_octets(&w.into_inner(), buf),
            Err(e) => Err(without_io(e)),
        }
    }

    /// Puts the encoding before the octets of the buffer, and answers its length.
    ///
    /// Refused as `to_der_vec` is, and then an end part of it may stand in the buffer. This body counts the contents
    /// octets for the header. A type whose contents octets are many or nested has one of its own, which puts the header
    /// of their number.
    fn prepend_der(&self, alloc: Global, buf: &mut DerBuffer) -> SerializeResult<usize>
        ensures prepended { writing.tells self.now →
            Prepended (whole_octets writing self.now) buf.old buf.new result }
        ensures refused { writing.tells self.now →
            IfErr result (VectorRefuses (length (whole_octets writing self.now) + length buf.old)
            (whole_refuses writing self.now)) }
        ensures accepted { (e : SerializeError) → writing.tells self.now →
            whole_refuses writing self.now e → IsErr result }
        ensures uncounted { (e : Error) → writing.tells self.now →
            writing.count_refuses self.now e → IsErr result }
        ensures first { (e : SerializeError) → writing.refuses_first self.now e →
            (result ≡ Err (vector_refusal e)) × (buf.new ≡ buf.old) }
    {
        let after = self.prepend_der_content(alloc, buf)?;
        let mut w = Told::new(Vec::new(alloc));
        match self.write_der_header(alloc, &mut w) {
            Ok(_) => prepend_behind(&w.into_inner(), after, buf),
            Err(e) => Err(without_io(e)),
        }
    }

    /// Appends the encoding as it was read, where the type keeps that; else as `write_der`.
    // A type with another raw form adds a clause that names its octets. Callers at that type see it; generic callers
    // see that an Ok(n) appended n octets.
    fn write_der_raw<W: DerWrite>(&self, alloc: Global, w: &mut W) -> SerializeResult<usize>
        ensures der { writing.tells self.now → raw_is_der self.now →
            Wrote (whole_octets writing self.now)
            (W.state w.old) (W.state w.new) result }
        ensures refused { writing.tells self.now → raw_is_der self.now →
            IfErr result (Refuses (whole_allocates writing)
            (length (whole_octets writing self.now))
            (whole_refuses writing self.now)) }
        ensures accepted { (e : SerializeError) → writing.tells self.now → raw_is_der self.now →
            writing.content_refuses self.now e → IsErr result }
        ensures uncounted { (e : Error) → writing.tells self.now → raw_is_der self.now →
            writing.count_refuses self.now e → IsErr result }
        ensures at_once { (e : SerializeError) → writing.tells self.now → raw_is_der self.now →
            writing.header_refuses self.now e →
            IsRefusedAtOnce (whole_allocates writing)
            (length (whole_octets writing self.now))
            (whole_refuses writing self.now)
            (W.state w.old) (W.state w.new) result }
        ensures counted { writing.tells self.now →
            IfOk result (λ n. (raw : List ℕ) × Appends (W.state w.old).told (W.state w.new).told raw
            × (n ≡ length raw)) }
        ensures first { (e : SerializeError) → writing.refuses_first self.now e →
            RefusedAtOnce e (W.state w.old) (W.state w.new) result }
        ensures kept { writing.tells self.now → raw_is_der self.now →
            KeepsOrMayRefuse (whole_allocates writing) (W.state w.old) (W.state w.new) result }
    {
        self.write_der(alloc, w)
    }

    /// The encoding in a vector. Out of memory is `OutOfMemory`, and never an `IOError`.
    #[inline(always)]
    fn to_der_vec(&self, alloc: Global) -> SerializeResult<Vec<u8>>
        ensures wrote { writing.tells self.now →
            IfOk result (λ octets. octets.items ≡ whole_octets writing self.now) }
        ensures refused { writing.tells self.now →
            IfErr result (VectorRefuses (length (whole_octets writing self.now))
            (whole_refuses writing self.now)) }
        ensures accepted { (e : SerializeError) → writing.tells self.now →
            whole_refuses writing self.now e → IsErr result }
        ensures uncounted { (e : Error) → writing.tells self.now →
            writing.count_refuses self.now e → IsErr result }
        ensures memory { IfErr result (λ e. tells_of_io e ≡ false) }
        ensures first { (e : SerializeError) → writing.refuses_first self.now e →
            result ≡ Err (vector_refusal e) }
    {
        let mut w = Told::new(Vec::new(alloc));
        match self.write_der(alloc, &mut w) {
            Ok(_) => Ok(w.into_inner()),
            Err(e) => Err(without_io(e)),
        }
    }

    /// The raw form in a vector.
    fn to_der_vec_raw(&self, alloc: Global) -> SerializeResult<Vec<u8>>
        ensures der { writing.tells self.now → raw_is_der self.now →
            IfOk result (λ octets. octets.items ≡ whole_octets writing self.now) }
        ensures refused { writing.tells self.now → raw_is_der self.now →
            IfErr result (VectorRefuses (length (whole_octets writing self.now))
            (whole_refuses writing self.now)) }
        ensures accepted { (e : SerializeError) → writing.tells self.now → raw_is_der self.now →
            whole_refuses writing self.now e → IsErr result }
        ensures uncounted { (e : Error) → writing.tells self.now → raw_is_der self.now →
            writing.count_refuses self.now e → IsErr result }
        ensures memory { IfErr result (λ e. tells_of_io e ≡ false) }
        ensures first { (e : SerializeError) → writing.refuses_first self.now e →
            result ≡ Err (vector_refusal e) }
    {
        let mut w = Told::new(Vec::new(alloc));
        match self.write_der_raw(alloc, &mut w) {
            Ok(_) => Ok(w.into_inner()),
            Err(e) => Err(without_io(e)),
        }
    }
}

/// Whether octets stand in the buffer: not where memory was refused. Other refusals are handed on.
pub(crate) fn stands(answer: SerializeResult<usize>) -> SerializeResult<bool>
    ensures stood { result ≡ Ok true → (n : ℕ) × (answer ≡ Ok n) }
    ensures memory { result ≡ Ok false → answer ≡ Err serialize_errors.OutOfMemory }
    ensures refused { IfErr result (λ e. (answer ≡ Err e) × (e ≢ serialize_errors.OutOfMemory)) }
{
    match answer {
        Ok(_) => Ok(true),
        Err(SerializeError::OutOfMemory) => Ok(false),
        Err(e) => Err(e),
    }
}
