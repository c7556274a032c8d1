//! Arms and choices that tell by an element whether it is one of theirs.
ghost use Rattle.std.specs.Prelude.{◌≡◌, ◌∷◌, [], ◌++◌, ℕ, List};
ghost use Rattle.asn1_rs.specs.Prelude.{class_number, has_a_class, has_a_tag, parts_of};
ghost use Rattle.asn1_rs.specs.Choices.{is_of_tag};

use crate::asn1_types::any::Any;
use crate::choices::LawfulChoice;
use crate::choices::arms::{Never, Or};
use crate::choices::nested::OrChoice;
use crate::traits::Tagged;
use asn1_headers::class::Class;
use asn1_headers::tag::Tag;

/// Arms that tell by class and tag number whether an element is of one of them.
pub trait TellsArms {
    /// Their classes and tag numbers.
    ghost arm_tags: { List (ℕ × ℕ) };

    /// Whether the element has the class and the tag number of an arm.
    fn is_element_of_an_arm(any: &Any<'_>) -> bool
        ensures { result ≡ has_a_tag arm_tags (parts_of any.now).id };

    /// Whether an arm has this class.
    fn is_class_of_an_arm(class: Class) -> bool
        ensures { result ≡ has_a_class arm_tags (class_number class) };
}

/// A choice that tells by class and tag number whether an element is of one of its arms. So it may be an arm itself.
///
///     impl ToldChoice for Simple<'_> {
///         fn has_element(any: &Any<'_>) -> bool {
///             <SimpleArms<'_> as TellsArms>::is_element_of_an_arm(any)
///         }
///
///         fn has_class(class: Class) -> bool {
///             <SimpleArms<'_> as TellsArms>::is_class_of_an_arm(class)
///         }
///     }
pub trait ToldChoice: LawfulChoice {
    /// Whether the element has the class and the tag number of an arm.
    fn has_element(any: &Any<'_>) -> bool
        ensures { result ≡ has_a_tag Self.laws.arms.grammar.tags (parts_of any.now).id };

    /// Whether an arm has this class.
    fn has_class(class: Class) -> bool
        ensures { result ≡ has_a_class Self.laws.arms.grammar.tags (class_number class) };
}

impl TellsArms for Never {
    ghost arm_tags = { [] };

    fn is_element_of_an_arm(_any: &Any<'_>) -> bool {
        false
    }

    fn is_class_of_an_arm(_class: Class) -> bool {
        false
    }
}

/// Whether the element is of this class and this tag number.
pub(crate) fn is_of_arm(class: u8, tag: Tag, any: &Any<'_>) -> bool
    ensures { result ≡ is_of_tag class tag.0 (parts_of any.now).id }
{
    any.header.class().number() == class && any.header.tag().0 == tag.0
}

impl<T: Tagged, R: TellsArms, const CLASS: u8> TellsArms for Or<T, R, CLASS> {
    ghost arm_tags = { (CLASS, (T.TAG).0) ∷ R.arm_tags };

    fn is_element_of_an_arm(any: &Any<'_>) -> bool {
        is_of_arm(CLASS, T::TAG, any) || R::is_element_of_an_arm(any)
    }

    fn is_class_of_an_arm(class: Class) -> bool {
        class.number() == CLASS || R::is_class_of_an_arm(class)
    }
}

impl<C: ToldChoice, R: TellsArms> TellsArms for OrChoice<C, R> {
    ghost arm_tags = { C.laws.arms.grammar.tags ++ R.arm_tags };

    #[tactic(auto, using(crate::specs::Laws::Choices::Nested::either_tag))]
    fn is_element_of_an_arm(any: &Any<'_>) -> bool {
        C::has_element(any) || R::is_element_of_an_arm(any)
    }

    #[tactic(auto, using(crate::specs::Laws::Choices::Nested::either_class))]
    fn is_class_of_an_arm(class: Class) -> bool {
        C::has_class(class) || R::is_class_of_an_arm(class)
    }
}
