//! Elements converted to machine integers (X.690 8.3).
//!
//! Each conversion is refused with `UnexpectedTag` at another tag number than that of integers, and with
//! `ConstructUnexpected` at a constructed element. Where the type does not hold the number, a type without sign is
//! refused with `IntegerNegative` for a first octet of 80 or more. Else it is refused with `IntegerTooLarge`. The class
//! is not looked at, and no constraint of DER is checked.
ghost use Rattle.asn1_rs.specs.Any.{parts_of};
ghost use Rattle.asn1_rs.specs.Integer.{UnsignedGives, SignedGives};

use crate::asn1_types::any::Any;
use crate::asn1_types::integer::{signed_from_any, unsigned_from_any};
use asn1_headers::error::Error;

impl Any<'_> {
    /// The number as a `u8`.
    pub fn u8(self) -> Result<u8, Error>
        ensures { UnsignedGives 1 (parts_of self.entry) result }
    {
        self.as_u8()
    }

    /// The number as a `u8`, of an element that stays.
    #[inline(always)]
    pub fn as_u8(&self) -> Result<u8, Error>
        ensures { UnsignedGives 1 (parts_of self.now) result }
    {
        Ok(unsigned_from_any(self, 1)? as u8)
    }

    /// The number as a `u16`.
    pub fn u16(self) -> Result<u16, Error>
        ensures { UnsignedGives 2 (parts_of self.entry) result }
    {
        self.as_u16()
    }

    /// The number as a `u16`, of an element that stays.
    #[inline(always)]
    pub fn as_u16(&self) -> Result<u16, Error>
        ensures { UnsignedGives 2 (parts_of self.now) result }
    {
        Ok(unsigned_from_any(self, 2)? as u16)
    }

    /// The number as a `u32`.
    pub fn u32(self) -> Result<u32, Error>
        ensures { UnsignedGives 4 (parts_of self.entry) result }
    {
        self.as_u32()
    }

    /// The number as a `u32`, of an element that stays.
    #[inline(always)]
    pub fn as_u32(&self) -> Result<u32, Error>
        ensures { UnsignedGives 4 (parts_of self.now) result }
    {
        Ok(unsigned_from_any(self, 4)? as u32)
    }

    /// The number as a `u64`.
    pub fn u64(self) -> Result<u64, Error>
        ensures { UnsignedGives 8 (parts_of self.entry) result }
    {
        self.as_u64()
    }

    /// The number as a `u64`, of an element that stays.
    #[inline(always)]
    pub fn as_u64(&self) -> Result<u64, Error>
        ensures { UnsignedGives 8 (parts_of self.now) result }
    {
        Ok(unsigned_from_any(self, 8)? as u64)
    }

    /// The number as a `u128`.
    pub fn u128(self) -> Result<u128, Error>
        ensures { UnsignedGives 16 (parts_of self.entry) result }
    {
        self.as_u128()
    }

    /// The number as a `u128`, of an element that stays.
    #[inline(always)]
    pub fn as_u128(&self) -> Result<u128, Error>
        ensures { UnsignedGives 16 (parts_of self.now) result }
    {
        unsigned_from_any(self, 16)
    }

    /// The number as a `i8`.
    pub fn i8(self) -> Result<i8, Error>
        ensures { SignedGives 1 (parts_of self.entry) result }
    {
        self.as_i8()
    }

    /// The number as a `i8`, of an element that stays.
    #[inline(always)]
    pub fn as_i8(&self) -> Result<i8, Error>
        ensures { SignedGives 1 (parts_of self.now) result }
    {
        Ok(signed_from_any(self, 1)? as i8)
    }

    /// The number as a `i16`.
    pub fn i16(self) -> Result<i16, Error>
        ensures { SignedGives 2 (parts_of self.entry) result }
    {
        self.as_i16()
    }

    /// The number as a `i16`, of an element that stays.
    #[inline(always)]
    pub fn as_i16(&self) -> Result<i16, Error>
        ensures { SignedGives 2 (parts_of self.now) result }
    {
        Ok(signed_from_any(self, 2)? as i16)
    }

    /// The number as a `i32`.
    pub fn i32(self) -> Result<i32, Error>
        ensures { SignedGives 4 (parts_of self.entry) result }
    {
        self.as_i32()
    }

    /// The number as a `i32`, of an element that stays.
    #[inline(always)]
    pub fn as_i32(&self) -> Result<i32, Error>
        ensures { SignedGives 4 (parts_of self.now) result }
    {
        Ok(signed_from_any(self, 4)? as i32)
    }

    /// The number as a `i64`.
    pub fn i64(self) -> Result<i64, Error>
        ensures { SignedGives 8 (parts_of self.entry) result }
    {
        self.as_i64()
    }

    /// The number as a `i64`, of an element that stays.
    #[inline(always)]
    pub fn as_i64(&self) -> Result<i64, Error>
        ensures { SignedGives 8 (parts_of self.now) result }
    {
        Ok(signed_from_any(self, 8)? as i64)
    }

    /// The number as a `i128`.
    pub fn i128(self) -> Result<i128, Error>
        ensures { SignedGives 16 (parts_of self.entry) result }
    {
        self.as_i128()
    }

    /// The number as a `i128`, of an element that stays.
    #[inline(always)]
    pub fn as_i128(&self) -> Result<i128, Error>
        ensures { SignedGives 16 (parts_of self.now) result }
    {
        signed_from_any(self, 16)
    }
}
