//! The types `u8`, `u16`, `u32`, `u64` and `u128` as integers of one to sixteen octets.
ghost use Rattle.std.specs.Prelude.{pos};
ghost use Rattle.x690.specs.Integers.{unsigned_octets};
ghost use Rattle.x690.specs.Laws.Integers.Unsigned.{unsigned_octets_content};
ghost use Rattle.asn1_rs.specs.Integer.{IsUnsigned};
ghost use Rattle.asn1_rs.specs.Laws.Integer.{integer_written};
ghost use Rattle.asn1_rs.specs.Laws.Integer.Unsigned.{unsigned_equal};

use crate::asn1_types::integer::{
    prepend_unsigned_content, put_unsigned_content, unsigned_element, unsigned_piece,
};
use crate::kinds::writing::{Piece, WritesElement};
use crate::kinds::{ElementKind, HasKind};
use crate::laws::LawfulMember;
use asn1_headers::buffer::DerBuffer;
use asn1_headers::error::{Error, SerializeResult};
use asn1_headers::tag::Tag;
use asn1_headers::writer::DerWrite;
use std::alloc::Global;
use x690::integers::unsigned_octets_count;

impl HasKind for u8 {
    type Kind = ElementKind;
}

impl WritesElement for u8 {
    ghost octets = { unsigned_octets };

    fn count_octets(&self) -> Result<usize, Error> {
        Ok(unsigned_octets_count(u128::from(*self)))
    }

    fn put_octets<W: DerWrite>(&self, w: &mut W) -> SerializeResult<usize> {
        put_unsigned_content(u128::from(*self), w)
    }

    fn prepend_contents(&self, _alloc: Global, buf: &mut DerBuffer) -> SerializeResult<usize> {
        prepend_unsigned_content(u128::from(*self), buf)
    }

    #[inline(always)]
    fn piece(&self) -> Option<Piece> {
        let (octets, count) = unsigned_element(Tag::Integer.0, u32::from(*self));
        Some(Piece::new(octets, count))
    }

    ghost written = { integer_written pos unsigned_octets unsigned_octets_content
        (IsUnsigned 1) };
}

impl LawfulMember for u8 {
    ghost same = { unsigned_equal };
}

impl HasKind for u16 {
    type Kind = ElementKind;
}

impl WritesElement for u16 {
    ghost octets = { unsigned_octets };

    fn count_octets(&self) -> Result<usize, Error> {
        Ok(unsigned_octets_count(u128::from(*self)))
    }

    fn put_octets<W: DerWrite>(&self, w: &mut W) -> SerializeResult<usize> {
        put_unsigned_content(u128::from(*self), w)
    }

    fn prepend_contents(&self, _alloc: Global, buf: &mut DerBuffer) -> SerializeResult<usize> {
        prepend_unsigned_content(u128::from(*self), buf)
    }

    #[inline(always)]
    fn piece(&self) -> Option<Piece> {
        let (octets, count) = unsigned_element(Tag::Integer.0, u32::from(*self));
        Some(Piece::new(octets, count))
    }

    ghost written = { integer_written pos unsigned_octets unsigned_octets_content
        (IsUnsigned 2) };
}

impl LawfulMember for u16 {
    ghost same = { unsigned_equal };
}

impl HasKind for u32 {
    type Kind = ElementKind;
}

impl WritesElement for u32 {
    ghost octets = { unsigned_octets };

    fn count_octets(&self) -> Result<usize, Error> {
        Ok(unsigned_octets_count(u128::from(*self)))
    }

    fn put_octets<W: DerWrite>(&self, w: &mut W) -> SerializeResult<usize> {
        put_unsigned_content(u128::from(*self), w)
    }

    fn prepend_contents(&self, _alloc: Global, buf: &mut DerBuffer) -> SerializeResult<usize> {
        prepend_unsigned_content(u128::from(*self), buf)
    }

    #[inline(always)]
    fn piece(&self) -> Option<Piece> {
        let (octets, count) = unsigned_element(Tag::Integer.0, *self);
        Some(Piece::new(octets, count))
    }

    ghost written = { integer_written pos unsigned_octets unsigned_octets_content
        (IsUnsigned 4) };
}

impl LawfulMember for u32 {
    ghost same = { unsigned_equal };
}

impl HasKind for u64 {
    type Kind = ElementKind;
}

impl WritesElement for u64 {
    ghost octets = { unsigned_octets };

    fn count_octets(&self) -> Result<usize, Error> {
        Ok(unsigned_octets_count(u128::from(*self)))
    }

    fn put_octets<W: DerWrite>(&self, w: &mut W) -> SerializeResult<usize> {
        put_unsigned_content(u128::from(*self), w)
    }

    fn prepend_contents(&self, _alloc: Global, buf: &mut DerBuffer) -> SerializeResult<usize> {
        prepend_unsigned_content(u128::from(*self), buf)
    }

    #[inline(always)]
    fn piece(&self) -> Option<Piece> {
        unsigned_piece(*self)
    }

    ghost written = { integer_written pos unsigned_octets unsigned_octets_content
        (IsUnsigned 8) };
}

impl LawfulMember for u64 {
    ghost same = { unsigned_equal };
}

impl HasKind for u128 {
    type Kind = ElementKind;
}

impl WritesElement for u128 {
    ghost octets = { unsigned_octets };

    fn count_octets(&self) -> Result<usize, Error> {
        Ok(unsigned_octets_count(u128::from(*self)))
    }

    fn put_octets<W: DerWrite>(&self, w: &mut W) -> SerializeResult<usize> {
        put_unsigned_content(u128::from(*self), w)
    }

    fn prepend_contents(&self, _alloc: Global, buf: &mut DerBuffer) -> SerializeResult<usize> {
        prepend_unsigned_content(u128::from(*self), buf)
    }

    ghost written = { integer_written pos unsigned_octets unsigned_octets_content
        (IsUnsigned 16) };
}

impl LawfulMember for u128 {
    ghost same = { unsigned_equal };
}
