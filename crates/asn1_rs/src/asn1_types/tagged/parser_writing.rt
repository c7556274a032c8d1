//! Values with the header of their tag, as they are written (X.690 8.14).
ghost use Rattle.asn1_headers.specs.Prepended.{Prepended};
ghost use Rattle.std.specs.Prelude.{◌≡◌, ◌+◌, length, true, IfOk, IfErr, IsErr};
ghost use Rattle.asn1_headers.specs.declared.error.Error.{Error};
ghost use Rattle.asn1_headers.specs.declared.error.SerializeError.{SerializeError};
ghost use Rattle.asn1_rs.specs.ToDer.{Refuses, RefusesCount, VectorRefuses};
ghost use Rattle.asn1_headers.specs.Writer.{Wrote};
ghost use Rattle.asn1_rs.specs.Tagged.Writing.{UnderTag, explicit_under, headed_writing, implicit_under};
ghost use Rattle.asn1_headers.specs.Header.{identifier_of};

use crate::asn1_types::tagged::parser::TaggedParser;
use crate::asn1_types::tagged::{Explicit, Implicit};
use crate::header::{element_len, put_counted_header};
use crate::to_der::ToDer;
use asn1_headers::buffer::{DerBuffer, prepend_element};
use asn1_headers::error::{Error, SerializeResult};
use asn1_headers::writer::DerWrite;
use std::alloc::Global;

/// What an element under a tag of this kind has of the value: its contents octets, and its constructed bit.
///
/// So a [`TaggedParser`] of the kind has [`ToDer`].
pub trait PutsUnder<T: ToDer> {
    /// The contents octets, the constructed bit, and the refusals of the contents octets that are the value's own.
    ghost under: { UnderTag T };

    /// How many contents octets are appended.
    fn count_octets(value: &T) -> Result<usize, Error>
        ensures count { T.writing.tells value.now →
            IfOk result (λ n. n ≡ length (under.octets value.now)) }
        ensures refused { T.writing.tells value.now →
            IfErr result (RefusesCount T.writing.count_allocates (length (under.octets value.now))
            (T.writing.count_refuses value.now)) }
        ensures accepted { (e : Error) → T.writing.tells value.now →
            T.writing.count_refuses value.now e →
            IsErr result };

    /// The constructed bit.
    fn constructed_bit(value: &T) -> bool
        ensures { T.writing.tells value.now → result ≡ under.bit value.now };

    /// Appends the contents octets, and answers their number.
    fn put_octets<W: DerWrite>(value: &T, alloc: Global, w: &mut W) -> SerializeResult<usize>
        ensures wrote { T.writing.tells value.now →
            Wrote (under.octets value.now) (W.state w.old) (W.state w.new) result }
        ensures refused { T.writing.tells value.now →
            IfErr result (Refuses under.allocates (length (under.octets value.now))
            (under.refuses value.now)) }
        ensures accepted { (e : SerializeError) → T.writing.tells value.now →
            under.refuses value.now e →
            IsErr result }
        ensures uncounted { (e : Error) → T.writing.tells value.now →
            T.writing.count_refuses value.now e →
            IsErr result };

    /// Puts the contents octets before those of the buffer, and answers their number.
    fn prepend_under(value: &T, alloc: Global, buf: &mut DerBuffer) -> SerializeResult<usize>
        ensures prepended { T.writing.tells value.now →
            Prepended (under.octets value.now) buf.old buf.new result }
        ensures refused { T.writing.tells value.now →
            IfErr result (VectorRefuses (length (under.octets value.now) + length buf.old)
            (under.refuses value.now)) }
        ensures accepted { (e : SerializeError) → T.writing.tells value.now →
            under.refuses value.now e → IsErr result }
        ensures uncounted { (e : Error) → T.writing.tells value.now →
            T.writing.count_refuses value.now e → IsErr result };
}

/// A constructed element, whose contents octets are the encoding of the value.
impl<T: ToDer> PutsUnder<T> for Explicit {
    ghost under = { explicit_under T.writing };

    fn count_octets(value: &T) -> Result<usize, Error> {
        value.to_der_len()
    }

    fn constructed_bit(_value: &T) -> bool {
        true
    }

    fn put_octets<W: DerWrite>(value: &T, alloc: Global, w: &mut W) -> SerializeResult<usize> {
        value.write_der(alloc, w)
    }

    fn prepend_under(value: &T, alloc: Global, buf: &mut DerBuffer) -> SerializeResult<usize> {
        value.prepend_der(alloc, buf)
    }
}

/// An element with the constructed bit and the contents octets of the value's.
impl<T: ToDer> PutsUnder<T> for Implicit {
    ghost under = { implicit_under T.writing };

    fn count_octets(value: &T) -> Result<usize, Error> {
        value.der_content_len()
    }

    fn constructed_bit(value: &T) -> bool {
        value.der_constructed()
    }

    fn put_octets<W: DerWrite>(value: &T, alloc: Global, w: &mut W) -> SerializeResult<usize> {
        value.write_der_content(alloc, w)
    }

    fn prepend_under(value: &T, alloc: Global, buf: &mut DerBuffer) -> SerializeResult<usize> {
        value.prepend_der_content(alloc, buf)
    }
}

/// Of the header in hand, the class and the tag number are written: the length and the constructed
/// bit are those of what is written. The raw form is the DER form.
// At the error type `Error` alone, so that a call need not name it.
impl<Kind: PutsUnder<T>, T: ToDer> ToDer for TaggedParser<'_, Kind, T, Error> {
    ghost writing = { headed_writing (λ t. identifier_of t.header) (λ t. t.inner) Kind.under
        T.writing };

    fn to_der_len(&self) -> Result<usize, Error> {
        element_len(self.header.tag().0, Kind::count_octets(&self.inner))
    }

    fn der_content_len(&self) -> Result<usize, Error> {
        Kind::count_octets(&self.inner)
    }

    fn der_constructed(&self) -> bool {
        Kind::constructed_bit(&self.inner)
    }

    fn write_der_header<W: DerWrite>(&self, _alloc: Global, w: &mut W) -> SerializeResult<usize> {
        let class = self.header.class().number();
        let constructed = Kind::constructed_bit(&self.inner);
        let counted = Kind::count_octets(&self.inner);
        put_counted_header(class, constructed, self.header.tag().0, counted, w)
    }

    fn write_der_content<W: DerWrite>(&self, alloc: Global, w: &mut W) -> SerializeResult<usize> {
        Kind::put_octets(&self.inner, alloc, w)
    }

    fn prepend_der_content(&self, alloc: Global, buf: &mut DerBuffer) -> SerializeResult<usize> {
        Kind::prepend_under(&self.inner, alloc, buf)
    }

    fn prepend_der(&self, alloc: Global, buf: &mut DerBuffer) -> SerializeResult<usize> {
        let class = self.header.class().number();
        let constructed = Kind::constructed_bit(&self.inner);
        let content = Kind::prepend_under(&self.inner, alloc, buf);
        prepend_element(class, constructed, self.header.tag().0, content, buf)
    }
}
