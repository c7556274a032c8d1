//! How types come by [`TellsDer`]. It is by the element that they are read as, by the item that they hold or refer to, or
//! by their items.
ghost use Rattle.std.specs.Prelude.{◌↔◌, IsTrue};

use crate::asn1_types::lists::DecidesEach;
use crate::kinds::assert_valid::DerElement;
use crate::kinds::collections::{LawfulMembers, Once, SequenceKind, SetKind};
use crate::kinds::{ElementKind, HasKind, HolderKind, Holds, LawfulElement};
use crate::laws::LawfulItem;
use crate::laws::der_form::{TellsDer, WhetherDer};

/// A type that is read as one element, and tells of each item in hand whether its value is in DER form.
///
/// So it has [`TellsDer`]. A type with [`DerElement`] has it.
pub trait TellsDerElement: LawfulElement {
    /// `is_der_form`.
    fn is_der_element(&self) -> bool
        ensures { IsTrue result ↔ Self.element.IsDer (Self.element.value self.now) };
}

impl<T: DerElement> TellsDerElement for T {
    fn is_der_element(&self) -> bool {
        self.assert_value_valid();
        true
    }
}

/// [`TellsDer`] of a type of this kind.
pub trait TellsDerBy<K>: LawfulItem {
    /// `is_der_form`.
    fn der_form_by_kind(&self) -> bool
        ensures { IsTrue result ↔ Self.grammar.IsDer (Self.grammar.value self.now) };
}

impl<T: TellsDerElement> TellsDerBy<ElementKind> for T {
    fn der_form_by_kind(&self) -> bool {
        self.is_der_element()
    }
}

impl<H: Holds<Held = T>, T: TellsDer> TellsDerBy<HolderKind> for H {
    fn der_form_by_kind(&self) -> bool {
        self.held().is_der_form()
    }
}

impl<L, T> TellsDerBy<SequenceKind> for L
where
    L: HasKind<Kind = SequenceKind> + DecidesEach<Item = T>,
    T: TellsDer,
{
    fn der_form_by_kind(&self) -> bool {
        self.decide_each::<WhetherDer>()
    }
}

impl<L, T> TellsDerBy<SetKind<Once>> for L
where
    L: HasKind<Kind = SetKind<Once>> + LawfulMembers<T> + DecidesEach<Item = T>,
    T: TellsDer,
{
    fn der_form_by_kind(&self) -> bool {
        self.members_pass();
        self.decide_each::<WhetherDer>()
    }
}

impl<T: HasKind + TellsDerBy<T::Kind>> TellsDer for T {
    fn is_der_form(&self) -> bool {
        self.der_form_by_kind()
    }
}
