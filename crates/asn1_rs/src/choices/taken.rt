//! Arms that an element converts to, whichever class it is of.
ghost use Rattle.asn1_rs.specs.Prelude.{ChoiceGives};
ghost use Rattle.asn1_rs.specs.Choices.{choice_grammar};
ghost use Rattle.asn1_rs.specs.Choices.Data.{AnswersOf};

use crate::asn1_types::any::Any;
use crate::choices::arms::TakesArms;
use crate::choices::nested::OrChoice;
use crate::choices::told::ToldChoice;
use crate::choices::{ChecksChoice, ReadsChoiceByBer};
use asn1_headers::error::Error;
use std::alloc::Global;

/// Arms that an element converts to by BER.
///
/// `choice_of_element` of the library converts to the choice itself. The borrow checker may take that call only where
/// an impl names the arms. This is so of a choice that has a lifetime, and holds a type that borrows for it. So an
/// author asks for the arms and makes the choice of them. `taken_as` and `refused_as` of `specs/Taken.antt` are named
/// at that function:
///
///     match <FilterArms<'a, F> as TakesWhole<'a>>::take_any(alloc, any) {
///         Ok(arms) => Ok(<FilterOf<'a, F> as OfArms>::of_arms(arms)),
///         Err(e) => Err(e),
///     }
// The impl is for the type itself: over all arms the borrow checker takes it nowhere.
pub trait TakesWhole<'a>: TakesArms<'a> {
    /// The arm that an element is.
    ///
    /// Refused first with `UnexpectedClass` where no arm has the class of the element. Then it is refused with
    /// `UnexpectedTag`, without an expected tag, where no arm has the element's tag number. The last refusal is that of
    /// the arm's conversion.
    fn take_any(alloc: Global, any: Any<'a>) -> Result<Self, Error>
        ensures { AnswersOf (choice_grammar (λ x. x) Self.take_arms) Self.take_arms.tags any.entry
            result };
}

/// What the conversion makes of an element.
fn arms_of<'a, A: TakesArms<'a>>(alloc: Global, any: Any<'a>) -> Result<A, Error>
    ensures { ChoiceGives A.take_arms.tags (λ x. x) A.arms_take any.entry result }
{
    let class = any.header.class();
    if !A::takes_class(class) {
        return Err(Error::unexpected_class(None, class));
    }
    A::take_arm(alloc, any)
}

/// The arm that an element is.
fn arm_of<'a, A: TakesArms<'a>>(alloc: Global, any: Any<'a>) -> Result<A, Error>
    ensures { AnswersOf (choice_grammar (λ x. x) A.take_arms) A.take_arms.tags any.entry result }
{
    arms_of(alloc, any)
}

impl<'a, C, R> TakesWhole<'a> for OrChoice<C, R>
where
    C: ReadsChoiceByBer<'a> + ChecksChoice + ToldChoice,
    R: TakesArms<'a>,
{
    fn take_any(alloc: Global, any: Any<'a>) -> Result<OrChoice<C, R>, Error> {
        arm_of(alloc, any)
    }
}
