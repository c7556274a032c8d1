//! The arms of a choice: a type, or the others behind it, with [`Never`] at the end.
ghost use Rattle.std.specs.Prelude.{◌≡◌, ◌≢◌, ◌∷◌, [], ℕ, List, None, Result, Err, false, IfErr};
ghost use Rattle.x690.specs.Octets.{IsOctets};
ghost use Rattle.x690.specs.Identifiers.{Identifier, IsTruncatedIdentifier};
ghost use Rattle.x690.specs.Elements.{Parts};
ghost use Rattle.asn1_headers.specs.Answers.{seen, Exactly, TellsMemory, IsOther};
ghost use Rattle.asn1_headers.specs.Class.{class_number};
ghost use Rattle.asn1_headers.specs.Error.{ErrorIs};
ghost use Rattle.asn1_headers.specs.declared.class.Class.{Class};
ghost use Rattle.asn1_headers.specs.declared.error.Err.{Err as Refusal};
ghost use Rattle.asn1_headers.specs.declared.error.Err.TheVariants.{Error as refused};
ghost use Rattle.asn1_headers.specs.declared.error.Error.{Error};
ghost use Rattle.asn1_headers.specs.declared.error.Error.TheVariants.{OutOfMemory};
ghost use Rattle.asn1_headers.specs.declared.error.Error.TheVariants as errors;
ghost use Rattle.asn1_rs.specs.declared.asn1_types.any.Any.{Any};
ghost use Rattle.asn1_rs.specs.Any.{parts_of};
ghost use Rattle.asn1_rs.specs.Choices.{ArmsGrammar, no_arms, or_arms, is_of_tag, has_a_tag, has_a_class, IsNoArm};
ghost use Rattle.asn1_rs.specs.Choices.{OrReads};
ghost use Rattle.asn1_rs.specs.Choices.{OrGives, OrChecks};
ghost use Rattle.asn1_rs.specs.Choices.Data.{LawfulArmsOf, end_of_arms, arm_before};
ghost use Rattle.asn1_rs.specs.Grammar.{TakesBody};
ghost use Rattle.asn1_rs.specs.Kinds.{IsExactCheck};
ghost use Rattle.asn1_rs.specs.Laws.Choices.Readers.{AreTagged, none_tagged, or_tagged, none_reads, none_reads_never_oom};
ghost use Rattle.asn1_rs.specs.Laws.Choices.Readers.{or_reads_exact, or_reads_never_oom, or_reads_other, or_takes};
ghost use Rattle.asn1_rs.specs.Laws.Choices.Readers.{or_takes_never_oom, or_takes_other, or_checks, none_takes, none_takes_never_oom};
ghost use Rattle.asn1_rs.specs.Laws.Choices.Readers.{NoArmChecks, none_checks, not_memory};
ghost use Rattle.asn1_rs.specs.Laws.Structs.Rows.{or_neither};
ghost use Rattle.asn1_rs.specs.Structs.{is_one_of};

use crate::asn1_types::any::Any;
use crate::laws::{LawfulBody, LawfulCheck, LawfulDer};
use crate::structs::field::LawfulType;
use crate::traits::Tagged;
use asn1_headers::class::Class;
use asn1_headers::error::{Err, Error, ParseResult};
use asn1_headers::tag::Tag;
use std::alloc::Global;

/// A type whose elements have this class, or one of the others.
///
/// Class 0 is universal, 1 application, 2 context-specific, 3 private (X.690 8.1.2.2).
#[derive(Debug, Drop)]
pub enum Or<T, R, const CLASS: u8> {
    /// A value of the type.
    This(T),
    /// A value of one of the others.
    Other(R),
}

/// No type.
// It has no `Debug`: no call of `fmt` could be made, so its contract would say nothing.
#[derive(Drop)]
pub enum Never {}

/// A type of the universal class, or one of the others.
pub type OrUniversal<T, R> = Or<T, R, 0>;

/// A type under a context-specific tag, or one of the others.
pub type OrTagged<T, R> = Or<T, R, 2>;

/// The arms of a choice.
pub trait Arms: Sized {
    /// What each is read from and how it is written, with the laws of these.
    ghost arm_laws: { LawfulArmsOf Self };
}

impl Arms for Never {
    ghost arm_laws = { end_of_arms };
}

impl<T: LawfulType, R: Arms, const CLASS: u8> Arms for Or<T, R, CLASS> {
    ghost arm_laws = { arm_before CLASS T.type_laws R.arm_laws };
}

/// Whether the element is of this class and this tag number.
fn is_of_arm(class: u8, tag: Tag, any: &Any<'_>) -> bool
    ensures { result ≡ is_of_tag class tag.0 (parts_of any.now).id }
{
    any.header.class().number() == class && any.header.tag().0 == tag.0
}

/// The refusal of an element that is of no arm.
pub(crate) fn no_arm(any: &Any<'_>) -> Error
    ensures { result ≡ errors.UnexpectedTag None (record { 0 = (parts_of any.now).id.number }) }
{
    Error::unexpected_tag(None, any.header.tag())
}

/// Arms with tag numbers, by which a choice of them is told where it is a field.
pub trait ArmNumbers {
    /// Their tag numbers.
    ghost arm_numbers: { List ℕ };

    /// Whether this is one of them.
    fn is_of_an_arm(tag: Tag) -> bool
        ensures { result ≡ is_one_of tag.0 arm_numbers };
}

impl ArmNumbers for Never {
    ghost arm_numbers = { [] };

    fn is_of_an_arm(_tag: Tag) -> bool {
        false
    }
}

impl<T: Tagged, R: ArmNumbers, const CLASS: u8> ArmNumbers for Or<T, R, CLASS> {
    ghost arm_numbers = { (T.TAG).0 ∷ R.arm_numbers };

    fn is_of_an_arm(tag: Tag) -> bool {
        T::TAG.0 == tag.0 || R::is_of_an_arm(tag)
    }
}

/// Arms that are read by DER.
pub trait ReadsArms<'a>: Sized {
    /// What they are read from.
    ghost read_arms: { ArmsGrammar Self };

    /// What reading octets may answer, at whose front an element with this identifier stands.
    ghost arms_give: { Identifier → List ℕ → Result (List ℕ × Self) (Refusal Error) → Type 0 };

    /// Whether an arm has this class.
    fn knows_class(class: Class) -> bool
        ensures { result ≡ has_a_class read_arms.tags (class_number class) };

    /// The value of the arm whose class and tag number the element has that begins the octets.
    fn read_arm(alloc: Global, any: &Any<'_>, octets: &'a [u8]) -> ParseResult<'a, Self, Error>
        ensures { arms_give (parts_of any.now).id octets.now (seen result) };

    /// A word is an element, and has the tag of an arm.
    ghost arms_tagged: { AreTagged Self.read_arms };

    /// What reading may answer is exact by the grammar.
    ghost exact_arms: { (i : Identifier) (input : List ℕ) (answer : Result (List ℕ × Self) (Refusal Error)) →
        IsOctets input → Self.arms_give i input answer →
        Exactly IsTruncatedIdentifier (Self.read_arms.Der i) Self.read_arms.value
        (TellsMemory Self.read_arms.allocates (λ (e f : Error). f ≡ e)) input answer };

    /// It is not out of memory where nothing allocates.
    ghost never_oom_arms: { Self.read_arms.allocates ≡ false → (i : Identifier) (input : List ℕ)
        (answer : Result (List ℕ × Self) (Refusal Error)) → Self.arms_give i input answer →
        IfErr answer (ErrorIs (IsOther (λ (e f : Error). f ≡ e))) };

    /// An element that is of no arm is refused.
    ghost other_arms: { (i : Identifier) (input : List ℕ) (answer : Result (List ℕ × Self) (Refusal Error)) →
        has_a_tag Self.read_arms.tags i ≡ false → Self.arms_give i input answer →
        IsNoArm refused i.number answer };
}

impl<'a> ReadsArms<'a> for Never {
    ghost read_arms = { no_arms };

    ghost arms_give = { λ i input answer. IsNoArm refused i.number answer };

    fn knows_class(_class: Class) -> bool {
        false
    }

    fn read_arm(_alloc: Global, any: &Any<'_>, _octets: &'a [u8]) -> ParseResult<'a, Never, Error> {
        Err(Err::Error(no_arm(any)))
    }

    ghost arms_tagged = { none_tagged };

    ghost exact_arms = { none_reads };

    ghost never_oom_arms = { λ none i input answer g. none_reads_never_oom i.number answer g };

    ghost other_arms = { λ i input answer none g. g };
}

impl<'a, T, R, const CLASS: u8> ReadsArms<'a> for Or<T, R, CLASS>
where
    T: LawfulDer<'a, Error> + Tagged,
    R: ReadsArms<'a>,
{
    ghost read_arms = { or_arms CLASS (T.TAG).0 T.grammar R.read_arms };

    ghost arms_give = { λ i. OrReads (is_of_tag CLASS (T.TAG).0 i) T.der_gives (R.arms_give i) };

    fn knows_class(class: Class) -> bool {
        class.number() == CLASS || R::knows_class(class)
    }

    fn read_arm(alloc: Global, any: &Any<'_>, octets: &'a [u8]) -> ParseResult<'a, Self, Error> {
        if is_of_arm(CLASS, T::TAG, any) {
            return match T::from_der(alloc, octets) {
                Ok((rest, value)) => Ok((rest, Or::This(value))),
                Err(e) => Err(e),
            };
        }
        match R::read_arm(alloc, any, octets) {
            Ok((rest, others)) => Ok((rest, Or::Other(others))),
            Err(e) => Err(e),
        }
    }

    ghost arms_tagged = { or_tagged CLASS (T.TAG).0 T.grammar R.read_arms T.lawful_item R.arms_tagged };

    ghost exact_arms = { or_reads_exact CLASS (T.TAG).0 T.grammar R.read_arms T.der_gives R.arms_give
        T.der_exact R.exact_arms };

    ghost never_oom_arms = { λ none. or_reads_never_oom CLASS (T.TAG).0 T.grammar R.read_arms T.der_gives R.arms_give
        (ErrorIs (IsOther (λ (e f : Error). f ≡ e)))
        (T.der_no_memory (or_neither T.grammar.allocates R.read_arms.allocates none).0)
        (R.never_oom_arms (or_neither T.grammar.allocates R.read_arms.allocates none).1) };

    ghost other_arms = { or_reads_other CLASS (T.TAG).0 T.grammar R.read_arms T.der_gives R.arms_give
        R.other_arms };
}

/// Arms that an element converts to, as by BER, and whose constraints are checked.
pub trait TakesArms<'a>: Sized {
    /// What they are read from.
    ghost take_arms: { ArmsGrammar Self };

    /// What the conversion of this element may answer.
    ghost arms_take: { Any → Result Self Error → Type 0 };

    /// What the check of an element of these parts may answer.
    ghost arms_check: { Parts → Result (Unit {0}) Error → Type 0 };

    /// Whether an arm has this class.
    fn takes_class(class: Class) -> bool
        ensures { result ≡ has_a_class take_arms.tags (class_number class) };

    /// The value of the arm whose class and tag number the element has.
    fn take_arm(alloc: Global, any: Any<'a>) -> Result<Self, Error>
        ensures { arms_take any.entry result };

    /// Refuses an element that breaks a constraint of the arm whose class and tag number it has.
    fn check_arm(any: &Any<'_>) -> Result<(), Error>
        ensures { arms_check (parts_of any.now) result };

    /// A word is an element, and has the tag of an arm.
    ghost tagged_arms: { AreTagged Self.take_arms };

    /// The conversion is exact.
    ghost exact_take: { (any : Any) (answer : Result Self Error) → IsOctets any.content.now →
        Self.arms_take any answer →
        TakesBody Self.take_arms.Body Self.take_arms.value Self.take_arms.allocates (λ (e f : Error). f ≡ e)
        (parts_of any) answer };

    /// It is not out of memory where nothing allocates.
    ghost never_oom_take: { Self.take_arms.allocates ≡ false → (any : Any) (e : Error) →
        Self.arms_take any (Err e) → e ≢ OutOfMemory };

    /// An element that is of no arm is refused.
    ghost other_take: { (any : Any) (answer : Result Self Error) →
        has_a_tag Self.take_arms.tags (parts_of any).id ≡ false → Self.arms_take any answer →
        IsNoArm (λ (e : Error). e) (parts_of any).id.number answer };

    /// The check is exact.
    ghost exact_check: { IsExactCheck Self.arms_check Self.take_arms.Check };
}

impl<'a> TakesArms<'a> for Never {
    ghost take_arms = { no_arms };

    ghost arms_take = { λ any. IsNoArm (λ (e : Error). e) (parts_of any).id.number };

    ghost arms_check = { NoArmChecks };

    fn takes_class(_class: Class) -> bool {
        false
    }

    fn take_arm(_alloc: Global, any: Any<'a>) -> Result<Never, Error> {
        Err(no_arm(&any))
    }

    fn check_arm(any: &Any<'_>) -> Result<(), Error> {
        Err(no_arm(any))
    }

    ghost tagged_arms = { none_tagged };

    ghost exact_take = { none_takes };

    ghost never_oom_take = { λ none. none_takes_never_oom };

    ghost other_take = { λ any answer none g. g };

    ghost exact_check = { none_checks };
}

impl<'a, T, R, const CLASS: u8> TakesArms<'a> for Or<T, R, CLASS>
where
    T: LawfulBody<'a, Error> + LawfulCheck + Tagged,
    R: TakesArms<'a>,
{
    ghost take_arms = { or_arms CLASS (T.TAG).0 T.grammar R.take_arms };

    ghost arms_take = { λ any. OrGives (is_of_tag CLASS (T.TAG).0 (parts_of any).id) (T.any_gives any)
        (R.arms_take any) };

    ghost arms_check = { OrChecks CLASS (T.TAG).0 T.check_gives R.arms_check };

    fn takes_class(class: Class) -> bool {
        class.number() == CLASS || R::takes_class(class)
    }

    fn take_arm(alloc: Global, any: Any<'a>) -> Result<Self, Error> {
        if is_of_arm(CLASS, T::TAG, &any) {
            return match T::try_from_any(alloc, any) {
                Ok(value) => Ok(Or::This(value)),
                Err(e) => Err(e),
            };
        }
        match R::take_arm(alloc, any) {
            Ok(others) => Ok(Or::Other(others)),
            Err(e) => Err(e),
        }
    }

    fn check_arm(any: &Any<'_>) -> Result<(), Error> {
        if is_of_arm(CLASS, T::TAG, any) {
            return T::check_constraints(any);
        }
        R::check_arm(any)
    }

    ghost tagged_arms = { or_tagged CLASS (T.TAG).0 T.grammar R.take_arms T.lawful_item R.tagged_arms };

    ghost exact_take = { or_takes CLASS (T.TAG).0 T.grammar R.take_arms T.any_gives R.arms_take T.body_exact
        R.exact_take };

    ghost never_oom_take = { λ none. or_takes_never_oom CLASS (T.TAG).0 T.grammar R.take_arms T.any_gives R.arms_take
        (λ e. e ≢ OutOfMemory)
        (λ any e g. not_memory e
        (T.body_no_memory (or_neither T.grammar.allocates R.take_arms.allocates none).0 any e g))
        (R.never_oom_take (or_neither T.grammar.allocates R.take_arms.allocates none).1) };

    ghost other_take = { or_takes_other CLASS (T.TAG).0 T.grammar R.take_arms T.any_gives R.arms_take
        R.other_take };

    ghost exact_check = { or_checks CLASS (T.TAG).0 T.grammar R.take_arms T.check_gives R.arms_check T.checks
        R.exact_check };
}
