//! A choice on the heap.
ghost use Rattle.std.specs.Prelude.{◌≡◌, IfOk, IfErr};
ghost use Rattle.asn1_headers.specs.declared.error.Error.TheVariants as errors;
ghost use Rattle.asn1_rs.specs.Prelude.{choice_type};
ghost use Rattle.asn1_rs.specs.Choices.Heap.{boxed, inner_of_box};

use crate::asn1_types::any::Any;
use crate::choices::told::ToldChoice;
use crate::choices::writing::UsesArm;
use crate::choices::{ChecksChoice, ChoiceKind, LawfulChoice, ReadsChoiceByBer};
use crate::kinds::HasKind;
use crate::kinds::der_form::TellsDerBy;
use crate::structs::field::LawfulType;
use crate::traits::DynTagged;
use asn1_headers::class::Class;
use asn1_headers::error::Error;
use asn1_headers::tag::Tag;
use std::alloc::Global;

/// A value of a choice on the heap.
///
/// A type may hold values of a choice that it does not know, as a filter that holds filters. It holds them on the heap,
/// and has a size of its own. Reading asks for memory.
#[derive(Debug, PartialEq, Drop)]
pub struct Boxed<C> {
    held: Box<C>,
}

impl<C> Boxed<C> {
    /// Puts a value on the heap.
    ///
    /// Refused only when out of memory, with `OutOfMemory`.
    pub fn new(alloc: Global, value: C) -> Result<Boxed<C>, Error>
    where
        C: Drop,
        ensures held { IfOk result (λ b. inner_of_box b ≡ value) }
        ensures refused { IfErr result (λ e. e ≡ errors.OutOfMemory) }
    {
        match Box::new(alloc, value) {
            Ok(held) => Ok(Boxed { held }),
            Err(_) => Err(Error::OutOfMemory),
        }
    }

    /// The value.
    pub fn get(&self) -> &C
        ensures { result.now ≡ inner_of_box self.now }
    {
        self.held.as_ref()
    }
}

impl<C> HasKind for Boxed<C> {
    type Kind = ChoiceKind;
}

impl<C: DynTagged> DynTagged for Boxed<C> {
    ghost dyn_tag = { λ b. C.dyn_tag (inner_of_box b) };

    fn tag(&self) -> Tag {
        self.held.as_ref().tag()
    }
}

impl<C: LawfulChoice> LawfulChoice for Boxed<C> {
    ghost laws = { boxed C.laws };

    fn with_arm<U: UsesArm>(&self, using: U) -> U::Answer {
        self.held.as_ref().with_arm(using)
    }
}

impl<'a, C: ReadsChoiceByBer<'a> + Drop> ReadsChoiceByBer<'a> for Boxed<C> {
    #[tactic(auto, using(crate::specs::Choices::Heap::boxed_taken, crate::specs::Choices::Heap::boxed_refused, crate::specs::Choices::Heap::boxed_memory))]
    fn choice_of_any(alloc: Global, any: Any<'a>) -> Result<Boxed<C>, Error> {
        match C::choice_of_any(alloc, any) {
            Ok(value) => Boxed::new(alloc, value),
            Err(e) => Err(e),
        }
    }
}

impl<C: ChecksChoice> ChecksChoice for Boxed<C> {
    fn check_choice(any: &Any<'_>) -> Result<(), Error> {
        C::check_choice(any)
    }
}

impl<C: ToldChoice> ToldChoice for Boxed<C> {
    fn has_element(any: &Any<'_>) -> bool {
        C::has_element(any)
    }

    fn has_class(class: Class) -> bool {
        C::has_class(class)
    }
}

/// Where the value is.
impl<C: LawfulChoice + TellsDerBy<ChoiceKind>> TellsDerBy<ChoiceKind> for Boxed<C> {
    fn der_form_by_kind(&self) -> bool {
        self.get().der_form_by_kind()
    }
}

impl<C: LawfulChoice> LawfulType for Boxed<C> {
    ghost type_laws = { choice_type ⟦<Boxed<C> as LawfulChoice>⟧.laws };
}
