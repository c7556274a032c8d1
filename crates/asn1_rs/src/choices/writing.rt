//! How choices are written: as the arm that a value is of.
ghost use Rattle.std.specs.Prelude.{◌≡◌, ℕ, List, length};
ghost use Rattle.asn1_rs.specs.Choices.{CountsWhole, CountsContent, TellsConstructed, CollectsWhole, CollectsContent};
ghost use Rattle.asn1_rs.specs.Choices.{CollectsHeader, HasTypeValue, choice_writing, ChosenArm, chosen};
ghost use Rattle.asn1_rs.specs.Choices.Data.{writing_of_choice};
ghost use Rattle.asn1_rs.specs.Laws.Choices.{choice_lawful_writing};

use crate::choices::{ChoiceKind, LawfulChoice};
use crate::kinds::writing::{LawfulWriteBy, ToDerBy};
use crate::laws::{LawfulItem, LawfulWrite};
use crate::to_der::ToDer;
use asn1_headers::buffer::{DerBuffer, prepend_octets};
use asn1_headers::error::{Error, SerializeResult, without_io};
use asn1_headers::writer::{DerWrite, Told, put_all};
use std::alloc::Global;

/// What is done with the value of an arm, whichever it is.
pub trait UsesArm: Sized {
    /// What it answers.
    type Answer;

    /// What it may answer of the value of this arm.
    ghost answers: { ChosenArm → Self.Answer → Type 0 };

    /// Uses a value.
    fn use_arm<T: LawfulWrite>(self, value: &T) -> Self::Answer
        ensures { answers (chosen T.grammar T.writing value.now) result };
}

/// States that it is one of its type's.
#[derive(Debug, Clone, Copy)]
pub struct AssertValid;

impl UsesArm for AssertValid {
    type Answer = ();

    ghost answers = { HasTypeValue };

    fn use_arm<T: LawfulWrite>(self, value: &T) {
        value.has_value();
    }
}

/// Counts its octets.
#[derive(Debug, Clone, Copy)]
struct Whole;

impl UsesArm for Whole {
    type Answer = Result<usize, Error>;

    ghost answers = { CountsWhole };

    fn use_arm<T: LawfulWrite>(self, value: &T) -> Result<usize, Error> {
        value.to_der_len()
    }
}

/// Counts its contents octets.
#[derive(Debug, Clone, Copy)]
struct Contents;

impl UsesArm for Contents {
    type Answer = Result<usize, Error>;

    ghost answers = { CountsContent };

    fn use_arm<T: LawfulWrite>(self, value: &T) -> Result<usize, Error> {
        value.der_content_len()
    }
}

/// Tells its constructed bit.
#[derive(Debug, Clone, Copy)]
struct Constructed;

impl UsesArm for Constructed {
    type Answer = bool;

    ghost answers = { TellsConstructed };

    fn use_arm<T: LawfulWrite>(self, value: &T) -> bool {
        value.der_constructed()
    }
}

/// Collects its octets.
#[derive(Debug, Clone, Copy)]
struct WholeOctets {
    alloc: Global,
}

impl UsesArm for WholeOctets {
    type Answer = SerializeResult<Vec<u8>>;

    ghost answers = { CollectsWhole };

    fn use_arm<T: LawfulWrite>(self, value: &T) -> SerializeResult<Vec<u8>> {
        value.to_der_vec(self.alloc)
    }
}

/// Collects its contents octets.
#[derive(Debug, Clone, Copy)]
struct ContentsOctets {
    alloc: Global,
}

impl UsesArm for ContentsOctets {
    type Answer = SerializeResult<Vec<u8>>;

    ghost answers = { CollectsContent };

    fn use_arm<T: LawfulWrite>(self, value: &T) -> SerializeResult<Vec<u8>> {
        let mut octets = Told::new(Vec::new(self.alloc));
        match value.write_der_content(self.alloc, &mut octets) {
            Ok(_) => Ok(octets.into_inner()),
            Err(e) => Err(without_io(e)),
        }
    }
}

/// Collects the octets of its header.
#[derive(Debug, Clone, Copy)]
struct HeaderOctets {
    alloc: Global,
}

impl UsesArm for HeaderOctets {
    type Answer = SerializeResult<Vec<u8>>;

    ghost answers = { CollectsHeader };

    fn use_arm<T: LawfulWrite>(self, value: &T) -> SerializeResult<Vec<u8>> {
        let mut octets = Told::new(Vec::new(self.alloc));
        match value.write_der_header(self.alloc, &mut octets) {
            Ok(_) => Ok(octets.into_inner()),
            Err(e) => Err(without_io(e)),
        }
    }
}

/// A choice is written as the arm that it is of, whose octets are collected first.
impl<T: LawfulChoice> ToDerBy<ChoiceKind> for T {
    ghost writing = { writing_of_choice T.laws };

    fn element_count(&self) -> Result<usize, Error> {
        self.with_arm(Whole)
    }

    fn content_count(&self) -> Result<usize, Error> {
        self.with_arm(Contents)
    }

    fn is_constructed(&self) -> bool {
        self.with_arm(Constructed)
    }

    fn put_header<W: DerWrite>(&self, alloc: Global, w: &mut W) -> SerializeResult<usize> {
        let header = self.with_arm(HeaderOctets { alloc })?;
        put_all(w, &header)
    }

    fn put_content<W: DerWrite>(&self, alloc: Global, w: &mut W) -> SerializeResult<usize> {
        let content = self.with_arm(ContentsOctets { alloc })?;
        put_all(w, &content)
    }

    fn put_whole<W: DerWrite>(&self, alloc: Global, w: &mut W) -> SerializeResult<usize> {
        let whole = self.with_arm(WholeOctets { alloc })?;
        put_all(w, &whole)
    }

    fn prepend_content(&self, alloc: Global, buf: &mut DerBuffer) -> SerializeResult<usize> {
        let content = self.with_arm(ContentsOctets { alloc })?;
        prepend_octets(&content, buf)
    }

    fn prepend_whole(&self, alloc: Global, buf: &mut DerBuffer) -> SerializeResult<usize> {
        let whole = self.with_arm(WholeOctets { alloc })?;
        prepend_octets(&whole, buf)
    }
}

impl<T: LawfulChoice> LawfulWriteBy<ChoiceKind> for T {
    ghost lawful_writing_by_kind = { choice_lawful_writing T.laws.as_arms T.laws.arms.grammar
        T.laws.arms.arm_of T.laws.puts };
}
