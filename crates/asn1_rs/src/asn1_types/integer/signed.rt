//! The types `i8`, `i16`, `i32`, `i64` and `i128` as integers of one to sixteen octets.
ghost use Rattle.x690.specs.Signed.{IsSigned, signed_octets};
ghost use Rattle.x690.specs.Laws.Signed.{signed_octets_content};
ghost use Rattle.asn1_rs.specs.Integer.{integer_element};
ghost use Rattle.asn1_rs.specs.Laws.Integer.{integer_written};
ghost use Rattle.asn1_rs.specs.Laws.Integer.Signed.{signed_equal};

use crate::asn1_types::integer::{prepend_signed_content, put_signed_content};
use crate::kinds::writing::{Piece, WritesElement};
use crate::kinds::{ElementKind, HasKind};
use crate::laws::LawfulMember;
use asn1_headers::buffer::DerBuffer;
use asn1_headers::error::{Error, SerializeResult};
use asn1_headers::tag::Tag;
use asn1_headers::writer::DerWrite;
use std::alloc::Global;
use x690::signed::{integer_element, signed_octets_count};

impl HasKind for i8 {
    type Kind = ElementKind;
}

impl WritesElement for i8 {
    ghost octets = { signed_octets };

    fn count_octets(&self) -> Result<usize, Error> {
        Ok(signed_octets_count(i128::from(*self)))
    }

    fn put_octets<W: DerWrite>(&self, w: &mut W) -> SerializeResult<usize> {
        put_signed_content(i128::from(*self), w)
    }

    fn prepend_contents(&self, _alloc: Global, buf: &mut DerBuffer) -> SerializeResult<usize> {
        prepend_signed_content(i128::from(*self), buf)
    }

    #[inline(always)]
    fn piece(&self) -> Option<Piece> {
        let (octets, count) = integer_element(Tag::Integer.0, i64::from(*self));
        Some(Piece::new(octets, count))
    }

    ghost written = { integer_written (λ n. n) signed_octets signed_octets_content
        (IsSigned 1) };
}

impl LawfulMember for i8 {
    ghost same = { signed_equal };
}

impl HasKind for i16 {
    type Kind = ElementKind;
}

impl WritesElement for i16 {
    ghost octets = { signed_octets };

    fn count_octets(&self) -> Result<usize, Error> {
        Ok(signed_octets_count(i128::from(*self)))
    }

    fn put_octets<W: DerWrite>(&self, w: &mut W) -> SerializeResult<usize> {
        put_signed_content(i128::from(*self), w)
    }

    fn prepend_contents(&self, _alloc: Global, buf: &mut DerBuffer) -> SerializeResult<usize> {
        prepend_signed_content(i128::from(*self), buf)
    }

    #[inline(always)]
    fn piece(&self) -> Option<Piece> {
        let (octets, count) = integer_element(Tag::Integer.0, i64::from(*self));
        Some(Piece::new(octets, count))
    }

    ghost written = { integer_written (λ n. n) signed_octets signed_octets_content
        (IsSigned 2) };
}

impl LawfulMember for i16 {
    ghost same = { signed_equal };
}

impl HasKind for i32 {
    type Kind = ElementKind;
}

impl WritesElement for i32 {
    ghost octets = { signed_octets };

    fn count_octets(&self) -> Result<usize, Error> {
        Ok(signed_octets_count(i128::from(*self)))
    }

    fn put_octets<W: DerWrite>(&self, w: &mut W) -> SerializeResult<usize> {
        put_signed_content(i128::from(*self), w)
    }

    fn prepend_contents(&self, _alloc: Global, buf: &mut DerBuffer) -> SerializeResult<usize> {
        prepend_signed_content(i128::from(*self), buf)
    }

    #[inline(always)]
    fn piece(&self) -> Option<Piece> {
        let (octets, count) = integer_element(Tag::Integer.0, i64::from(*self));
        Some(Piece::new(octets, count))
    }

    ghost written = { integer_written (λ n. n) signed_octets signed_octets_content
        (IsSigned 4) };
}

impl LawfulMember for i32 {
    ghost same = { signed_equal };
}

impl HasKind for i64 {
    type Kind = ElementKind;
}

impl WritesElement for i64 {
    ghost octets = { signed_octets };

    fn count_octets(&self) -> Result<usize, Error> {
        Ok(signed_octets_count(i128::from(*self)))
    }

    fn put_octets<W: DerWrite>(&self, w: &mut W) -> SerializeResult<usize> {
        put_signed_content(i128::from(*self), w)
    }

    fn prepend_contents(&self, _alloc: Global, buf: &mut DerBuffer) -> SerializeResult<usize> {
        prepend_signed_content(i128::from(*self), buf)
    }

    #[inline(always)]
    fn piece(&self) -> Option<Piece> {
        let (octets, count) = integer_element(Tag::Integer.0, *self);
        Some(Piece::new(octets, count))
    }

    ghost written = { integer_written (λ n. n) signed_octets signed_octets_content
        (IsSigned 8) };
}

impl LawfulMember for i64 {
    ghost same = { signed_equal };
}

impl HasKind for i128 {
    type Kind = ElementKind;
}

impl WritesElement for i128 {
    ghost octets = { signed_octets };

    fn count_octets(&self) -> Result<usize, Error> {
        Ok(signed_octets_count(i128::from(*self)))
    }

    fn put_octets<W: DerWrite>(&self, w: &mut W) -> SerializeResult<usize> {
        put_signed_content(i128::from(*self), w)
    }

    fn prepend_contents(&self, _alloc: Global, buf: &mut DerBuffer) -> SerializeResult<usize> {
        prepend_signed_content(i128::from(*self), buf)
    }

    ghost written = { integer_written (λ n. n) signed_octets signed_octets_content
        (IsSigned 16) };
}

impl LawfulMember for i128 {
    ghost same = { signed_equal };
}
