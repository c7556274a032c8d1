//! How types whose items in hand are all in DER form come by [`AlwaysDer`]. It is by the element that they are read as,
//! by the item that they hold or refer to, or by their items.
ghost use Rattle.std.specs.Prelude.{◌≡◌};

use crate::asn1_types::lists::Listed;
use crate::kinds::collections::{LawfulMembers, Once, SequenceKind, SetKind};
use crate::kinds::{ElementKind, HasKind, HolderKind, Holds, LawfulElement};
use crate::laws::LawfulItem;
use crate::laws::assert_valid::{AlwaysDer, OfDer, assert_members_valid};

/// A type that is read as one element, each of whose values is in DER form.
///
/// So it has [`AlwaysDer`].
pub trait DerElement: LawfulElement {
    /// Each value of the type is in DER form.
    ghost each_der: { (v : Self.element.Value) → Self.element.IsValue v → Self.element.IsDer v };
}

/// [`AlwaysDer`] of a type of this kind.
pub trait AlwaysDerBy<K>: LawfulItem {
    /// `is_der`.
    fn der_by_kind(&self)
        ensures { Self.grammar.IsDer (Self.grammar.value self.now) };
}

impl<T: DerElement> AlwaysDerBy<ElementKind> for T {
    fn der_by_kind(&self) {
        self.assert_value_valid();
    }
}

impl<H: Holds<Held = T>, T: AlwaysDer> AlwaysDerBy<HolderKind> for H {
    fn der_by_kind(&self) {
        self.held().is_der();
    }
}

impl<L, T> AlwaysDerBy<SequenceKind> for L
where
    L: HasKind<Kind = SequenceKind> + Listed<Item = T>,
    T: AlwaysDer,
{
    fn der_by_kind(&self) {
        self.state_each::<OfDer>();
    }
}

impl<L, T> AlwaysDerBy<SetKind<Once>> for L
where
    L: HasKind<Kind = SetKind<Once>> + LawfulMembers<T> + Listed<Item = T>,
    T: AlwaysDer,
{
    fn der_by_kind(&self) {
        self.state_each::<OfDer>();
        assert_members_valid::<L, T>(self);
    }
}

impl<T: HasKind + AlwaysDerBy<T::Kind>> AlwaysDer for T {
    fn is_der(&self) {
        self.der_by_kind();
    }
}
