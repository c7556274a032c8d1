//! Copies of the fields of a struct.
//!
//! A struct is copied by the row of references to its fields: what the row is copied to are the fields of the copy.
//!
//!     impl<'a> ToStatic for Extension<'a> {
//!         type Owned = Extension<'static>;
//!
//!         ghost copies = { copied_by ⟦<Extension<'a> as LawfulStruct>⟧.laws.as_row
//!             ⟦<ExtensionRow<'static> as ToStatic>⟧.copies };
//!
//!         fn to_static(&self, alloc: Global) -> Result<Extension<'static>, Error> {
//!             copy_fields!(self, alloc => Extension { id, critical, value })
//!         }
//!     }
ghost use Rattle.std.specs.Prelude.{◌≡◌, ◌||◌, false};

use super::ToStatic;
use asn1_headers::error::Error;
use std::alloc::Global;

/// The end of a row, and the null value.
impl ToStatic for () {
    type Owned = ();

    ghost copies = { λ source copy. copy ≡ source };

    ghost copy_allocates = { false };

    fn to_static(&self, _alloc: Global) -> Result<(), Error> {
        Ok(())
    }
}

/// The copy of a row is the copies of its fields, in their order. Refused at the first that is refused.
impl<F, R> ToStatic for (F, R)
where
    F: ToStatic,
    F::Owned: Drop,
    R: ToStatic,
{
    type Owned = (F::Owned, R::Owned);

    ghost copies = { λ source copy. F.copies source.0 copy.0 × R.copies source.1 copy.1 };

    ghost copy_allocates = { F.copy_allocates || R.copy_allocates };

    fn to_static(&self, alloc: Global) -> Result<(F::Owned, R::Owned), Error> {
        let first = self.0.to_static(alloc)?;
        let others = self.1.to_static(alloc)?;
        Ok((first, others))
    }
}
