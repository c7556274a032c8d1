//! Properties of integers of any size.
ghost use Rattle.std.specs.Prelude.{◌≡◌, int_lt, length, pos};
ghost use Rattle.x690.specs.Digits.{twos_complement_value};
ghost use Rattle.asn1_rs.specs.Integer.Octets.{integer_octets};
ghost use Rattle.asn1_rs_profiles.specs.Refined.Ready.{goes_by, is_between, is_positive, same_length};

use crate::refined::{LawfulProperty, Property};
use asn1_rs::Integer;
use x690::integers::unsigned_number;

/// Integers above 0 (X.690 8.3.3).
#[derive(Debug)]
pub struct Positive;

/// Integers whose contents octets are of a number in a range, its bounds among it.
#[derive(Debug)]
pub struct Octets<const LEAST: usize, const MOST: usize>;

/// Whether the integer that contents octets say is above 0.
fn says_positive(octets: &[u8]) -> bool
    ensures { result ≡ is_positive octets.now }
{
    let Some(first) = octets.first() else {
        return false;
    };
    if *first >= 128 {
        return false;
    }
    match unsigned_number(octets, 16) {
        Some(number) => number > 0,
        None => true,
    }
}

impl Property<Integer<'_>> for Positive {
    ghost keeps = { λ x. is_positive (integer_octets x) };

    fn holds(value: &Integer<'_>) -> bool
        ensures { result ≡ is_positive (integer_octets value.now) }
    {
        says_positive(value.as_bytes())
    }
}

impl LawfulProperty<Integer<'_>> for Positive {
    ghost by_value = { goes_by integer_octets integer_octets is_positive (λ x y e. e) };
}

impl<const LEAST: usize, const MOST: usize> Property<Integer<'_>> for Octets<LEAST, MOST> {
    ghost keeps = { λ x. is_between LEAST MOST (length (integer_octets x)) };

    fn holds(value: &Integer<'_>) -> bool
        ensures { result ≡ is_between LEAST MOST (length (integer_octets value.now)) }
    {
        let count = value.as_bytes().len();
        LEAST <= count && count <= MOST
    }
}

impl<const LEAST: usize, const MOST: usize> LawfulProperty<Integer<'_>> for Octets<LEAST, MOST> {
    ghost by_value = { goes_by integer_octets (λ x. length (integer_octets x))
        (is_between LEAST MOST) (same_length integer_octets) };
}
