//! Integers of any size made of machine integers, and converted to them (X.690 8.3).
//!
//! An integer is made in memory of its own. It is converted by the number that its octets say in two's complement
//! (8.3.3). No octets say 0, and octets that could be left out say nothing.
ghost use Rattle.std.specs.Prelude.{pos};
ghost use Rattle.asn1_rs.specs.Integer.Machine.{MachineGives, unsigned_machine, signed_machine};
ghost use Rattle.asn1_rs.specs.Integer.Octets.{HasContentOr, integer_octets};

use crate::asn1_types::integer::machine::MachineInt;
use crate::asn1_types::integer::octets::Integer;
use asn1_headers::error::Error;
use std::alloc::Global;

impl Integer<'static> {
    /// The strict contents octets of a `u8` (X.690 8.3.2, 8.3.3). Refused where memory is, with `OutOfMemory`.
    pub fn from_u8(alloc: Global, i: u8) -> Result<Integer<'static>, Error>
        ensures { HasContentOr (pos i) result }
    {
        Integer::from(alloc, i)
    }

    /// The strict contents octets of a `u16` (X.690 8.3.2, 8.3.3). Refused where memory is, with `OutOfMemory`.
    pub fn from_u16(alloc: Global, i: u16) -> Result<Integer<'static>, Error>
        ensures { HasContentOr (pos i) result }
    {
        Integer::from(alloc, i)
    }

    /// The strict contents octets of a `u32` (X.690 8.3.2, 8.3.3). Refused where memory is, with `OutOfMemory`.
    pub fn from_u32(alloc: Global, i: u32) -> Result<Integer<'static>, Error>
        ensures { HasContentOr (pos i) result }
    {
        Integer::from(alloc, i)
    }

    /// The strict contents octets of a `u64` (X.690 8.3.2, 8.3.3). Refused where memory is, with `OutOfMemory`.
    pub fn from_u64(alloc: Global, i: u64) -> Result<Integer<'static>, Error>
        ensures { HasContentOr (pos i) result }
    {
        Integer::from(alloc, i)
    }

    /// The strict contents octets of a `u128` (X.690 8.3.2, 8.3.3). Refused where memory is, with `OutOfMemory`.
    pub fn from_u128(alloc: Global, i: u128) -> Result<Integer<'static>, Error>
        ensures { HasContentOr (pos i) result }
    {
        Integer::from(alloc, i)
    }

    /// The strict contents octets of an `i8` (X.690 8.3.2, 8.3.3). Refused where memory is, with `OutOfMemory`.
    pub fn from_i8(alloc: Global, i: i8) -> Result<Integer<'static>, Error>
        ensures { HasContentOr i result }
    {
        Integer::from(alloc, i)
    }

    /// The strict contents octets of an `i16` (X.690 8.3.2, 8.3.3). Refused where memory is, with `OutOfMemory`.
    pub fn from_i16(alloc: Global, i: i16) -> Result<Integer<'static>, Error>
        ensures { HasContentOr i result }
    {
        Integer::from(alloc, i)
    }

    /// The strict contents octets of an `i32` (X.690 8.3.2, 8.3.3). Refused where memory is, with `OutOfMemory`.
    pub fn from_i32(alloc: Global, i: i32) -> Result<Integer<'static>, Error>
        ensures { HasContentOr i result }
    {
        Integer::from(alloc, i)
    }

    /// The strict contents octets of an `i64` (X.690 8.3.2, 8.3.3). Refused where memory is, with `OutOfMemory`.
    pub fn from_i64(alloc: Global, i: i64) -> Result<Integer<'static>, Error>
        ensures { HasContentOr i result }
    {
        Integer::from(alloc, i)
    }

    /// The strict contents octets of an `i128` (X.690 8.3.2, 8.3.3). Refused where memory is, with `OutOfMemory`.
    pub fn from_i128(alloc: Global, i: i128) -> Result<Integer<'static>, Error>
        ensures { HasContentOr i result }
    {
        Integer::from(alloc, i)
    }
}

impl Integer<'_> {
    /// The number as a `u8` (X.690 8.3.3). Refused with `IntegerNegative` at a first octet of 80 or more,
    /// else with `IntegerTooLarge` where the type does not hold it.
    pub fn as_u8(&self) -> Result<u8, Error>
        ensures { MachineGives (unsigned_machine 1) (integer_octets self.now) result }
    {
        u8::from_octets(self.as_bytes())
    }

    /// The number as a `u16` (X.690 8.3.3). Refused with `IntegerNegative` at a first octet of 80 or more,
    /// else with `IntegerTooLarge` where the type does not hold it.
    pub fn as_u16(&self) -> Result<u16, Error>
        ensures { MachineGives (unsigned_machine 2) (integer_octets self.now) result }
    {
        u16::from_octets(self.as_bytes())
    }

    /// The number as a `u32` (X.690 8.3.3). Refused with `IntegerNegative` at a first octet of 80 or more,
    /// else with `IntegerTooLarge` where the type does not hold it.
    pub fn as_u32(&self) -> Result<u32, Error>
        ensures { MachineGives (unsigned_machine 4) (integer_octets self.now) result }
    {
        u32::from_octets(self.as_bytes())
    }

    /// The number as a `u64` (X.690 8.3.3). Refused with `IntegerNegative` at a first octet of 80 or more,
    /// else with `IntegerTooLarge` where the type does not hold it.
    pub fn as_u64(&self) -> Result<u64, Error>
        ensures { MachineGives (unsigned_machine 8) (integer_octets self.now) result }
    {
        u64::from_octets(self.as_bytes())
    }

    /// The number as a `u128` (X.690 8.3.3). Refused with `IntegerNegative` at a first octet of 80 or more,
    /// else with `IntegerTooLarge` where the type does not hold it.
    pub fn as_u128(&self) -> Result<u128, Error>
        ensures { MachineGives (unsigned_machine 16) (integer_octets self.now) result }
    {
        u128::from_octets(self.as_bytes())
    }

    /// The number as an `i8` (X.690 8.3.3). Refused with `IntegerTooLarge` where the type does not hold it.
    pub fn as_i8(&self) -> Result<i8, Error>
        ensures { MachineGives (signed_machine 1) (integer_octets self.now) result }
    {
        i8::from_octets(self.as_bytes())
    }

    /// The number as an `i16` (X.690 8.3.3). Refused with `IntegerTooLarge` where the type does not hold it.
    pub fn as_i16(&self) -> Result<i16, Error>
        ensures { MachineGives (signed_machine 2) (integer_octets self.now) result }
    {
        i16::from_octets(self.as_bytes())
    }

    /// The number as an `i32` (X.690 8.3.3). Refused with `IntegerTooLarge` where the type does not hold it.
    pub fn as_i32(&self) -> Result<i32, Error>
        ensures { MachineGives (signed_machine 4) (integer_octets self.now) result }
    {
        i32::from_octets(self.as_bytes())
    }

    /// The number as an `i64` (X.690 8.3.3). Refused with `IntegerTooLarge` where the type does not hold it.
    pub fn as_i64(&self) -> Result<i64, Error>
        ensures { MachineGives (signed_machine 8) (integer_octets self.now) result }
    {
        i64::from_octets(self.as_bytes())
    }

    /// The number as an `i128` (X.690 8.3.3). Refused with `IntegerTooLarge` where the type does not hold it.
    pub fn as_i128(&self) -> Result<i128, Error>
        ensures { MachineGives (signed_machine 16) (integer_octets self.now) result }
    {
        i128::from_octets(self.as_bytes())
    }
}

/// As [`Integer::as_u8`] converts.
impl TryFrom<Integer<'_>> for u8 {
    type Error = Error;

    ghost try_from_gives = { λ x. MachineGives (unsigned_machine 1) (integer_octets x) };

    fn try_from(value: Integer<'_>) -> Result<u8, Error> {
        value.as_u8()
    }
}

/// As [`Integer::as_u16`] converts.
impl TryFrom<Integer<'_>> for u16 {
    type Error = Error;

    ghost try_from_gives = { λ x. MachineGives (unsigned_machine 2) (integer_octets x) };

    fn try_from(value: Integer<'_>) -> Result<u16, Error> {
        value.as_u16()
    }
}

/// As [`Integer::as_u32`] converts.
impl TryFrom<Integer<'_>> for u32 {
    type Error = Error;

    ghost try_from_gives = { λ x. MachineGives (unsigned_machine 4) (integer_octets x) };

    fn try_from(value: Integer<'_>) -> Result<u32, Error> {
        value.as_u32()
    }
}

/// As [`Integer::as_u64`] converts.
impl TryFrom<Integer<'_>> for u64 {
    type Error = Error;

    ghost try_from_gives = { λ x. MachineGives (unsigned_machine 8) (integer_octets x) };

    fn try_from(value: Integer<'_>) -> Result<u64, Error> {
        value.as_u64()
    }
}

/// As [`Integer::as_u128`] converts.
impl TryFrom<Integer<'_>> for u128 {
    type Error = Error;

    ghost try_from_gives = { λ x. MachineGives (unsigned_machine 16) (integer_octets x) };

    fn try_from(value: Integer<'_>) -> Result<u128, Error> {
        value.as_u128()
    }
}

/// As [`Integer::as_i8`] converts.
impl TryFrom<Integer<'_>> for i8 {
    type Error = Error;

    ghost try_from_gives = { λ x. MachineGives (signed_machine 1) (integer_octets x) };

    fn try_from(value: Integer<'_>) -> Result<i8, Error> {
        value.as_i8()
    }
}

/// As [`Integer::as_i16`] converts.
impl TryFrom<Integer<'_>> for i16 {
    type Error = Error;

    ghost try_from_gives = { λ x. MachineGives (signed_machine 2) (integer_octets x) };

    fn try_from(value: Integer<'_>) -> Result<i16, Error> {
        value.as_i16()
    }
}

/// As [`Integer::as_i32`] converts.
impl TryFrom<Integer<'_>> for i32 {
    type Error = Error;

    ghost try_from_gives = { λ x. MachineGives (signed_machine 4) (integer_octets x) };

    fn try_from(value: Integer<'_>) -> Result<i32, Error> {
        value.as_i32()
    }
}

/// As [`Integer::as_i64`] converts.
impl TryFrom<Integer<'_>> for i64 {
    type Error = Error;

    ghost try_from_gives = { λ x. MachineGives (signed_machine 8) (integer_octets x) };

    fn try_from(value: Integer<'_>) -> Result<i64, Error> {
        value.as_i64()
    }
}

/// As [`Integer::as_i128`] converts.
impl TryFrom<Integer<'_>> for i128 {
    type Error = Error;

    ghost try_from_gives = { λ x. MachineGives (signed_machine 16) (integer_octets x) };

    fn try_from(value: Integer<'_>) -> Result<i128, Error> {
        value.as_i128()
    }
}
