//! Ranges of integers.
ghost use Rattle.std.specs.Prelude.{◌≡◌, ℤ, pos};
ghost use Rattle.std.proofs.Common.{ap};
ghost use Rattle.asn1_rs_profiles.specs.Refined.Ready.{goes_by, is_within};

use crate::refined::{LawfulProperty, Property};
use asn1_rs::Enumerated;
use asn1_rs::laws::Grammar;

/// A type of integers of a machine: `u8` to `u128`, `i8` to `i128`, and `Enumerated`.
pub trait Number {
    /// The integer that a value is.
    ghost number: { Self → ℤ };

    /// Whether the integer is in a range, its bounds among it.
    fn is_within(&self, low: i64, high: i64) -> bool
        ensures { result ≡ is_within low high (number self.now) };
}

/// A type of integers whose values are integers.
// A trait of its own: with `Grammar` above `Number`, the checker says of a field of type `Refined<u8, Range<0, 9>>`
// that it does not cover a type with a bound that an impl meets which is not the only match.
pub trait LawfulNumber: Number + Grammar {
    /// Two items of one value are one integer.
    ghost one_number: { (x y : Self) → Self.grammar.value x ≡ Self.grammar.value y →
        Self.number x ≡ Self.number y };
}

/// The integers of a range, its bounds among it: `(LOW..HIGH)` (X.680 51.4). Of one number it is `Range<5, 5>`.
#[derive(Debug)]
pub struct Range<const LOW: i64, const HIGH: i64>;

impl<T: Number, const LOW: i64, const HIGH: i64> Property<T> for Range<LOW, HIGH> {
    ghost keeps = { λ n. is_within LOW HIGH (T.number n) };

    fn holds(value: &T) -> bool {
        value.is_within(LOW, HIGH)
    }
}

impl<T: LawfulNumber, const LOW: i64, const HIGH: i64> LawfulProperty<T> for Range<LOW, HIGH> {
    ghost by_value = { goes_by T.grammar.value T.number (is_within LOW HIGH) T.one_number };
}

impl Number for u8 {
    ghost number = { pos };

    fn is_within(&self, low: i64, high: i64) -> bool {
        let number = i64::from(*self);
        low <= number && number <= high
    }
}

impl Number for u16 {
    ghost number = { pos };

    fn is_within(&self, low: i64, high: i64) -> bool {
        let number = i64::from(*self);
        low <= number && number <= high
    }
}

impl Number for u32 {
    ghost number = { pos };

    fn is_within(&self, low: i64, high: i64) -> bool {
        let number = i64::from(*self);
        low <= number && number <= high
    }
}

impl Number for u64 {
    ghost number = { pos };

    fn is_within(&self, low: i64, high: i64) -> bool {
        let number = i128::from(*self);
        i128::from(low) <= number && number <= i128::from(high)
    }
}

/// A number past those of `i64` is in no range.
impl Number for u128 {
    ghost number = { pos };

    fn is_within(&self, low: i64, high: i64) -> bool {
        if *self > 0x7fff_ffff_ffff_ffff {
            return false;
        }
        let number = *self as i64;
        low <= number && number <= high
    }
}

impl Number for i8 {
    ghost number = { λ n. n };

    fn is_within(&self, low: i64, high: i64) -> bool {
        let number = i64::from(*self);
        low <= number && number <= high
    }
}

impl Number for i16 {
    ghost number = { λ n. n };

    fn is_within(&self, low: i64, high: i64) -> bool {
        let number = i64::from(*self);
        low <= number && number <= high
    }
}

impl Number for i32 {
    ghost number = { λ n. n };

    fn is_within(&self, low: i64, high: i64) -> bool {
        let number = i64::from(*self);
        low <= number && number <= high
    }
}

impl Number for i64 {
    ghost number = { λ n. n };

    fn is_within(&self, low: i64, high: i64) -> bool {
        let number = *self;
        low <= number && number <= high
    }
}

impl Number for i128 {
    ghost number = { λ n. n };

    fn is_within(&self, low: i64, high: i64) -> bool {
        i128::from(low) <= *self && *self <= i128::from(high)
    }
}

impl Number for Enumerated {
    ghost number = { λ x. pos x.0 };

    fn is_within(&self, low: i64, high: i64) -> bool {
        let number = i64::from(self.0);
        low <= number && number <= high
    }
}

impl LawfulNumber for u8 {
    ghost one_number = { λ x y e. e };
}

impl LawfulNumber for u16 {
    ghost one_number = { λ x y e. e };
}

impl LawfulNumber for u32 {
    ghost one_number = { λ x y e. e };
}

impl LawfulNumber for u64 {
    ghost one_number = { λ x y e. e };
}

impl LawfulNumber for u128 {
    ghost one_number = { λ x y e. e };
}

impl LawfulNumber for i8 {
    ghost one_number = { λ x y e. e };
}

impl LawfulNumber for i16 {
    ghost one_number = { λ x y e. e };
}

impl LawfulNumber for i32 {
    ghost one_number = { λ x y e. e };
}

impl LawfulNumber for i64 {
    ghost one_number = { λ x y e. e };
}

impl LawfulNumber for i128 {
    ghost one_number = { λ x y e. e };
}

impl LawfulNumber for Enumerated {
    ghost one_number = { λ x y e. ap pos e };
}
