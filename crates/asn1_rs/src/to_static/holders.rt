//! Copies of what holds values that have copies.
ghost use Rattle.std.specs.Prelude.{◌≡◌, IfOk, IfErr, true};
ghost use Rattle.std.specs.List.{AllZip};
ghost use Rattle.asn1_headers.specs.declared.error.Error.TheVariants as errors;
ghost use Rattle.asn1_rs.specs.Copies.{CopiesSome};
ghost use Rattle.asn1_rs.specs.Sequence.SequenceOf.{sequence_items};
ghost use Rattle.asn1_rs.specs.Set.{items_of};

use super::ToStatic;
use crate::asn1_types::sequence::sequence_of::SequenceOf;
use crate::asn1_types::set::set_of::SetOf;
use crate::asn1_types::tagged::TaggedValue;
use crate::structs::defaulted::Defaulted;
use asn1_headers::error::Error;
use std::alloc::Global;

/// The copy of a reference is that of what it refers to.
impl<T: ToStatic> ToStatic for &T {
    type Owned = T::Owned;

    ghost copies = { λ source copy. T.copies source.now copy };

    ghost copy_allocates = { T.copy_allocates };

    fn to_static(&self, alloc: Global) -> Result<T::Owned, Error> {
        T::to_static(*self, alloc)
    }
}

impl<T: ToStatic> ToStatic for Option<T> {
    type Owned = Option<T::Owned>;

    ghost copies = { CopiesSome T.copies };

    ghost copy_allocates = { T.copy_allocates };

    fn to_static(&self, alloc: Global) -> Result<Option<T::Owned>, Error> {
        match self {
            Some(source) => Ok(Some(source.to_static(alloc)?)),
            None => Ok(None),
        }
    }
}

/// The copy is in a box of its own.
impl<T> ToStatic for Box<T>
where
    T: ToStatic,
    T::Owned: Drop,
{
    type Owned = Box<T::Owned>;

    ghost copies = { λ source copy. T.copies source.value copy.value };

    fn to_static(&self, alloc: Global) -> Result<Box<T::Owned>, Error> {
        let copy = self.as_ref().to_static(alloc)?;
        match Box::new(alloc, copy) {
            Ok(held) => Ok(held),
            Err(_) => Err(Error::OutOfMemory),
        }
    }
}

/// Copies of the items, in their order.
fn copied_items<T>(alloc: Global, items: &[T]) -> Result<Vec<T::Owned>, Error>
where
    T: ToStatic,
    T::Owned: Drop,
    ensures copied { IfOk result (λ copies. AllZip T.copies items.now copies.items) }
    ensures refused { IfErr result (λ e. e ≡ errors.OutOfMemory) }
{
    let mut copies = Vec::new(alloc);
    for item in items {
        let copy = item.to_static(alloc)?;
        match copies.push(copy) {
            Ok(()) => {}
            Err(_) => return Err(Error::OutOfMemory),
        }
    }
    Ok(copies)
}

/// The items of the copy are copies of the items, in their order.
impl<T> ToStatic for Vec<T>
where
    T: ToStatic,
    T::Owned: Drop,
{
    type Owned = Vec<T::Owned>;

    ghost copies = { λ source copy. AllZip T.copies source.items copy.items };

    fn to_static(&self, alloc: Global) -> Result<Vec<T::Owned>, Error> {
        copied_items(alloc, self.as_slice())
    }
}

/// The items of the copy are copies of the items, in their order.
impl<T> ToStatic for SequenceOf<T>
where
    T: ToStatic,
    T::Owned: Drop,
{
    type Owned = SequenceOf<T::Owned>;

    ghost copies = { λ source copy. AllZip T.copies (sequence_items source) (sequence_items copy) };

    fn to_static(&self, alloc: Global) -> Result<SequenceOf<T::Owned>, Error> {
        Ok(SequenceOf::new(copied_items::<T>(alloc, self.as_slice())?))
    }
}

/// The items of the copy are copies of the items, in the order in hand.
impl<T> ToStatic for SetOf<T>
where
    T: ToStatic,
    T::Owned: Drop,
{
    type Owned = SetOf<T::Owned>;

    ghost copies = { λ source copy. AllZip T.copies (items_of source) (items_of copy) };

    fn to_static(&self, alloc: Global) -> Result<SetOf<T::Owned>, Error> {
        Ok(SetOf::new(copied_items::<T>(alloc, self.as_slice())?))
    }
}

/// The copy is under the same tag.
impl<T, E, Kind, const CLASS: u8, const TAG: u32> ToStatic for TaggedValue<T, E, Kind, CLASS, TAG>
where
    T: ToStatic,
    E: 'static,
    Kind: 'static,
{
    type Owned = TaggedValue<T::Owned, E, Kind, CLASS, TAG>;

    ghost copies = { λ source copy. T.copies source.inner copy.inner };

    ghost copy_allocates = { T.copy_allocates };

    fn to_static(
        &self,
        alloc: Global,
    ) -> Result<TaggedValue<T::Owned, E, Kind, CLASS, TAG>, Error> {
        Ok(TaggedValue::of_kind(self.as_inner().to_static(alloc)?))
    }
}

/// The copy has the same default.
impl<T: ToStatic, D: 'static> ToStatic for Defaulted<T, D> {
    type Owned = Defaulted<T::Owned, D>;

    ghost copies = { λ source copy. T.copies source.value copy.value };

    ghost copy_allocates = { T.copy_allocates };

    fn to_static(&self, alloc: Global) -> Result<Defaulted<T::Owned, D>, Error> {
        Ok(Defaulted::of(self.value.to_static(alloc)?))
    }
}
