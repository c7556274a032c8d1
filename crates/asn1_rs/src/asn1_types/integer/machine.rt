//! The machine integers, which hold the integers of one to sixteen octets (X.690 8.3).
ghost use Rattle.std.specs.Prelude.{◌≡◌, ◌≤◌, ◌<◌, take, drop};
ghost use Rattle.asn1_rs.specs.Integer.Machine.{Machine, IsLawfulMachine, MachineGives, unsigned_machine};
ghost use Rattle.asn1_rs.specs.Integer.Machine.{signed_machine, machine_reading};
ghost use Rattle.asn1_rs.specs.Laws.Integer.Machine.{unsigned_lawful, signed_lawful, machine_exact};

use crate::asn1_types::any::Any;
use crate::asn1_types::integer::{
    assert_integer, check_integer, signed_from_content, unsigned_from_content,
};
use crate::kinds::assert_valid::DerElement;
use crate::kinds::leaf::{ConvertsLeaf, LeafType};
use crate::kinds::{ElementKind, HasKind, TagNumber};
use asn1_headers::error::Error;
use std::alloc::Global;
use x690::integers::unsigned_into;
use x690::signed::signed_into;

/// The machine integers: `u8` to `u128` and `i8` to `i128`.
// One impl over all of them gives `LeafType`, `ConvertsLeaf` and `DerElement`. Each type has `HasKind`, `WritesElement`
// and `LawfulMember` itself. One impl of `HasKind` or `LawfulMember` over all of them conflicts with that for
// references. A crate above could make a reference to its own type a machine integer. One of `WritesElement` conflicts
// with that over `WritesOctets`. The gate takes no impl that a macro of this repository writes.
pub trait MachineInt: Copy {
    /// The integers that its values are, which it holds, and how octets of others are refused.
    ghost machine: { Machine Self };

    /// A value is that of one integer, and octets are refused only where the type does not hold theirs.
    ghost lawful_machine: { IsLawfulMachine Self.machine };

    /// Writes the strict contents octets to the end of the array, and says where they begin (X.690 8.3.2, 8.3.3).
    /// What stands before them stays.
    fn octets_into(self, out: &mut [u8; 17]) -> usize
        ensures octets { drop result out.new ≡ machine.octets self }
        ensures kept { take result out.new ≡ take result out.old }
        ensures within { result ≤ 16 }
        ensures held { machine.Holds (machine.number self) };

    /// The value that contents octets say in two's complement (X.690 8.3.3). No octets say 0, and octets that could
    /// be left out say nothing.
    ///
    /// Refused where the type does not hold the integer. A type without sign is refused with `IntegerNegative` for a
    /// first octet of 80 or more, else with `IntegerTooLarge`.
    fn from_octets(octets: &[u8]) -> Result<Self, Error>
        ensures { MachineGives machine octets.now result };
}

impl MachineInt for u8 {
    ghost machine = { unsigned_machine 1 };

    ghost lawful_machine = { unsigned_lawful 1 };

    fn octets_into(self, out: &mut [u8; 17]) -> usize {
        unsigned_into(u128::from(self), out)
    }

    #[inline(always)]
    fn from_octets(octets: &[u8]) -> Result<u8, Error> {
        Ok(unsigned_from_content(octets, 1)? as u8)
    }
}

impl MachineInt for u16 {
    ghost machine = { unsigned_machine 2 };

    ghost lawful_machine = { unsigned_lawful 2 };

    fn octets_into(self, out: &mut [u8; 17]) -> usize {
        unsigned_into(u128::from(self), out)
    }

    #[inline(always)]
    fn from_octets(octets: &[u8]) -> Result<u16, Error> {
        Ok(unsigned_from_content(octets, 2)? as u16)
    }
}

impl MachineInt for u32 {
    ghost machine = { unsigned_machine 4 };

    ghost lawful_machine = { unsigned_lawful 4 };

    fn octets_into(self, out: &mut [u8; 17]) -> usize {
        unsigned_into(u128::from(self), out)
    }

    #[inline(always)]
    fn from_octets(octets: &[u8]) -> Result<u32, Error> {
        Ok(unsigned_from_content(octets, 4)? as u32)
    }
}

impl MachineInt for u64 {
    ghost machine = { unsigned_machine 8 };

    ghost lawful_machine = { unsigned_lawful 8 };

    fn octets_into(self, out: &mut [u8; 17]) -> usize {
        unsigned_into(u128::from(self), out)
    }

    #[inline(always)]
    fn from_octets(octets: &[u8]) -> Result<u64, Error> {
        Ok(unsigned_from_content(octets, 8)? as u64)
    }
}

impl MachineInt for u128 {
    ghost machine = { unsigned_machine 16 };

    ghost lawful_machine = { unsigned_lawful 16 };

    fn octets_into(self, out: &mut [u8; 17]) -> usize {
        unsigned_into(u128::from(self), out)
    }

    #[inline(always)]
    fn from_octets(octets: &[u8]) -> Result<u128, Error> {
        unsigned_from_content(octets, 16)
    }
}

impl MachineInt for i8 {
    ghost machine = { signed_machine 1 };

    ghost lawful_machine = { signed_lawful 1 };

    fn octets_into(self, out: &mut [u8; 17]) -> usize {
        signed_into(i128::from(self), out)
    }

    #[inline(always)]
    fn from_octets(octets: &[u8]) -> Result<i8, Error> {
        Ok(signed_from_content(octets, 1)? as i8)
    }
}

impl MachineInt for i16 {
    ghost machine = { signed_machine 2 };

    ghost lawful_machine = { signed_lawful 2 };

    fn octets_into(self, out: &mut [u8; 17]) -> usize {
        signed_into(i128::from(self), out)
    }

    #[inline(always)]
    fn from_octets(octets: &[u8]) -> Result<i16, Error> {
        Ok(signed_from_content(octets, 2)? as i16)
    }
}

impl MachineInt for i32 {
    ghost machine = { signed_machine 4 };

    ghost lawful_machine = { signed_lawful 4 };

    fn octets_into(self, out: &mut [u8; 17]) -> usize {
        signed_into(i128::from(self), out)
    }

    #[inline(always)]
    fn from_octets(octets: &[u8]) -> Result<i32, Error> {
        Ok(signed_from_content(octets, 4)? as i32)
    }
}

impl MachineInt for i64 {
    ghost machine = { signed_machine 8 };

    ghost lawful_machine = { signed_lawful 8 };

    fn octets_into(self, out: &mut [u8; 17]) -> usize {
        signed_into(i128::from(self), out)
    }

    #[inline(always)]
    fn from_octets(octets: &[u8]) -> Result<i64, Error> {
        Ok(signed_from_content(octets, 8)? as i64)
    }
}

impl MachineInt for i128 {
    ghost machine = { signed_machine 16 };

    ghost lawful_machine = { signed_lawful 16 };

    fn octets_into(self, out: &mut [u8; 17]) -> usize {
        signed_into(i128::from(self), out)
    }

    #[inline(always)]
    fn from_octets(octets: &[u8]) -> Result<i128, Error> {
        signed_from_content(octets, 16)
    }
}

impl<T: MachineInt + HasKind<Kind = ElementKind>> LeafType for T {
    type Number = TagNumber<2>;

    ghost reading = { machine_reading T.machine };

    ghost exact = { machine_exact T.machine T.lawful_machine };

    fn assert_leaf_valid(&self) {
        let mut octets = [0; 17];
        let _ = self.octets_into(&mut octets);
    }

    fn check_leaf(any: &Any<'_>) -> Result<(), Error> {
        check_integer(any)
    }
}

impl<'a, T: MachineInt + HasKind<Kind = ElementKind>> ConvertsLeaf<'a> for T {
    #[inline(always)]
    fn convert_leaf(_alloc: Global, any: Any<'a>) -> Result<T, Error> {
        assert_integer(&any)?;
        T::from_octets(any.content)
    }
}

impl<T: MachineInt + HasKind<Kind = ElementKind>> DerElement for T {
    ghost each_der = { λ v d. d };
}
