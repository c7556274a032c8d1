//! Copies that borrow nothing.
ghost use Rattle.std.specs.Prelude.{◌≡◌, Bool, IsTrue, true, false, IfOk, IfErr};
ghost use Rattle.asn1_headers.specs.declared.error.Error.TheVariants as errors;

mod holders;
mod octets;
mod plain;
mod rows;

use asn1_headers::error::Error;
use std::alloc::Global;

/// A type whose values have copies that borrow nothing, so that they outlive what they were read from.
pub trait ToStatic {
    /// The type of the copies.
    type Owned: 'static;

    /// The copy is equal to its source.
    // A relation, since the type of the copy may be another one.
    ghost copies: { Self → Self.Owned → Type 0 };

    /// Whether copying may allocate.
    ghost copy_allocates: { Bool } = { true };

    /// The copy. Refused only when out of memory, and never where copying does not allocate.
    fn to_static(&self, alloc: Global) -> Result<Self::Owned, Error>
        ensures copied { IfOk result (copies self.now) }
        ensures refused { IfErr result (λ e. (e ≡ errors.OutOfMemory) × IsTrue copy_allocates) };
}

/// A machine integer is its own copy.
// One impl over `MachineInt` conflicts with those for `&T` and `Box<T>`. A kind would take three lines for each type in
// place of ten. It would take two public traits more, and `&T` and `Box<T>` would name a kind too.
impl ToStatic for u8 {
    type Owned = u8;

    ghost copies = { λ source copy. copy ≡ source };

    ghost copy_allocates = { false };

    fn to_static(&self, _alloc: Global) -> Result<u8, Error> {
        Ok(*self)
    }
}

impl ToStatic for u16 {
    type Owned = u16;

    ghost copies = { λ source copy. copy ≡ source };

    ghost copy_allocates = { false };

    fn to_static(&self, _alloc: Global) -> Result<u16, Error> {
        Ok(*self)
    }
}

impl ToStatic for u32 {
    type Owned = u32;

    ghost copies = { λ source copy. copy ≡ source };

    ghost copy_allocates = { false };

    fn to_static(&self, _alloc: Global) -> Result<u32, Error> {
        Ok(*self)
    }
}

impl ToStatic for u64 {
    type Owned = u64;

    ghost copies = { λ source copy. copy ≡ source };

    ghost copy_allocates = { false };

    fn to_static(&self, _alloc: Global) -> Result<u64, Error> {
        Ok(*self)
    }
}

impl ToStatic for u128 {
    type Owned = u128;

    ghost copies = { λ source copy. copy ≡ source };

    ghost copy_allocates = { false };

    fn to_static(&self, _alloc: Global) -> Result<u128, Error> {
        Ok(*self)
    }
}

impl ToStatic for i8 {
    type Owned = i8;

    ghost copies = { λ source copy. copy ≡ source };

    ghost copy_allocates = { false };

    fn to_static(&self, _alloc: Global) -> Result<i8, Error> {
        Ok(*self)
    }
}

impl ToStatic for i16 {
    type Owned = i16;

    ghost copies = { λ source copy. copy ≡ source };

    ghost copy_allocates = { false };

    fn to_static(&self, _alloc: Global) -> Result<i16, Error> {
        Ok(*self)
    }
}

impl ToStatic for i32 {
    type Owned = i32;

    ghost copies = { λ source copy. copy ≡ source };

    ghost copy_allocates = { false };

    fn to_static(&self, _alloc: Global) -> Result<i32, Error> {
        Ok(*self)
    }
}

impl ToStatic for i64 {
    type Owned = i64;

    ghost copies = { λ source copy. copy ≡ source };

    ghost copy_allocates = { false };

    fn to_static(&self, _alloc: Global) -> Result<i64, Error> {
        Ok(*self)
    }
}

impl ToStatic for i128 {
    type Owned = i128;

    ghost copies = { λ source copy. copy ≡ source };

    ghost copy_allocates = { false };

    fn to_static(&self, _alloc: Global) -> Result<i128, Error> {
        Ok(*self)
    }
}

impl ToStatic for usize {
    type Owned = usize;

    ghost copies = { λ source copy. copy ≡ source };

    ghost copy_allocates = { false };

    fn to_static(&self, _alloc: Global) -> Result<usize, Error> {
        Ok(*self)
    }
}

impl ToStatic for isize {
    type Owned = isize;

    ghost copies = { λ source copy. copy ≡ source };

    ghost copy_allocates = { false };

    fn to_static(&self, _alloc: Global) -> Result<isize, Error> {
        Ok(*self)
    }
}

/// A truth value is its own copy.
impl ToStatic for bool {
    type Owned = bool;

    ghost copies = { λ source copy. copy ≡ source };

    ghost copy_allocates = { false };

    fn to_static(&self, _alloc: Global) -> Result<bool, Error> {
        Ok(*self)
    }
}
