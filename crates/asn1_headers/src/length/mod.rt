//! Lengths (X.690 8.1.3).

pub mod writing;

ghost use Rattle.std.specs.Prelude.{◌≡◌, ◌↔◌, ℕ, IsTrue, IfOk, IfErr, MatchResult};
ghost use Rattle.asn1_headers.specs.Length.{sum_of, Fits};
ghost use Rattle.asn1_headers.specs.declared.length.Length.TheVariants as forms;
ghost use Rattle.asn1_headers.specs.declared.error.Error.TheVariants as errors;

use crate::error::Error;
use std::ops::{Add, AddAssign};

/// How an element says where its contents end.
#[derive(Debug, Clone, Copy, PartialEq, Eq)]
pub enum Length {
    /// The number of contents octets.
    Definite(usize),
    /// The contents end at 00 00.
    Indefinite,
}

impl Length {
    /// Whether it is the definite length 0.
    pub fn is_null(&self) -> bool
        ensures { IsTrue result ↔ (self.now ≡ forms.Definite 0) }
    {
        *self == Length::Definite(0)
    }

    /// The number of octets, or `IndefiniteLengthUnexpected`.
    pub fn definite(&self) -> Result<usize, Error>
        ensures { MatchResult result (λ n. self.now ≡ forms.Definite n)
            (λ e. (self.now ≡ forms.Indefinite) × (e ≡ errors.IndefiniteLengthUnexpected)) }
    {
        match self {
            Length::Definite(n) => Ok(*n),
            Length::Indefinite => Err(Error::IndefiniteLengthUnexpected),
        }
    }

    /// Whether it is definite.
    pub fn is_definite(&self) -> bool
        ensures { IsTrue result ↔ ((n : ℕ) × (self.now ≡ forms.Definite n)) }
    {
        matches!(self, Length::Definite(_))
    }

    /// Refuses the indefinite form with `IndefiniteLengthUnexpected`.
    pub fn assert_definite(&self) -> Result<(), Error>
        ensures { MatchResult result (λ _. (n : ℕ) × (self.now ≡ forms.Definite n))
            (λ e. (self.now ≡ forms.Indefinite) × (e ≡ errors.IndefiniteLengthUnexpected)) }
    {
        match self {
            Length::Definite(_) => Ok(()),
            Length::Indefinite => Err(Error::IndefiniteLengthUnexpected),
        }
    }
}

impl From<usize> for Length {
    ghost from_gives = { λ n length. length ≡ forms.Definite n };

    fn from(n: usize) -> Length {
        Length::Definite(n)
    }
}

impl Add<Length> for Length {
    type Output = Length;

    ghost can_add = { λ a b. Fits (sum_of a b) };

    ghost add_gives = { λ a b sum. sum ≡ sum_of a b };

    fn add(self, rhs: Length) -> Length {
        match (self, rhs) {
            (Length::Definite(a), Length::Definite(b)) => Length::Definite(a + b),
            _ => Length::Indefinite,
        }
    }
}

impl Add<usize> for Length {
    type Output = Length;

    ghost can_add = { λ a n. Fits (sum_of a (forms.Definite n)) };

    ghost add_gives = { λ a n sum. sum ≡ sum_of a (forms.Definite n) };

    fn add(self, rhs: usize) -> Length {
        match self {
            Length::Definite(a) => Length::Definite(a + rhs),
            Length::Indefinite => Length::Indefinite,
        }
    }
}

impl AddAssign<usize> for Length {
    ghost can_add_assign = { λ a n. Fits (sum_of a (forms.Definite n)) };

    ghost add_assign_gives = { λ a n sum. sum ≡ sum_of a (forms.Definite n) };

    fn add_assign(&mut self, rhs: usize) {
        *self = *self + rhs;
    }
}
