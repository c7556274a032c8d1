//! A lawful type of a caller's at an error type of its own, under a tag that its reader answers.
ghost use Rattle.std.specs.Prelude.{◌≡◌, List, ℕ, Result, pos, false};
ghost use Rattle.asn1_rs.specs.Prelude.{Exactly, IsTruncatedIdentifier, IsOctets, TellsMemory};
ghost use Rattle.asn1_headers.specs.declared.error.Err.{Err as Refusal};
ghost use Rattle.asn1_headers.specs.Header.{identifier_of};
ghost use Rattle.asn1_rs.specs.declared.asn1_types.tagged.parser.TaggedParser.{TaggedParser};
ghost use Rattle.asn1_rs.specs.declared.asn1_types.tagged.Explicit.{Explicit};
ghost use Rattle.asn1_rs.specs.Integer.{IntegerCheckGives, IsUnsigned};
ghost use Rattle.asn1_rs.specs.Laws.Integer.{integer_checks, integer_lawful};
ghost use Rattle.asn1_rs.specs.Laws.Kinds.{holding_lawful};
ghost use Rattle.asn1_rs.specs.Tagged.{ThenByDer};
ghost use Rattle.asn1_rs.specs.Tagged.Parser.{TakesWholeContent};
ghost use Rattle.asn1_rs.specs.Traits.{DerGives};
ghost use Rattle.asn1_rs_uses.specs.Levels.{RefusedAs, refused_as_takes, refused_as_no_memory, level_number};
ghost use Rattle.asn1_rs_uses.specs.Levels.{level_element, LevelConverts, level_converts, LevelByDer};
ghost use Rattle.asn1_rs_uses.specs.declared.levels.Level.{Level};
ghost use Rattle.asn1_rs_uses.specs.declared.levels.LevelError.{LevelError};
ghost use Rattle.asn1_rs_uses.specs.declared.levels.LevelError.TheVariants.{Octets};

use asn1_rs::author::{ElementKind, HasKind, LawfulBodyBy, LawfulCheckBy, LawfulElement};
use asn1_rs::laws::reader_is_exact_by_der;
use asn1_rs::{
    Any, CheckDerConstraints, DerAutoDerive, Error, Explicit, FromAny, Tag, Tagged, TaggedParser,
};
use std::alloc::Global;

/// Why a level is refused.
#[derive(Debug, Drop)]
pub enum LevelError {
    /// Its octets are.
    Octets(Error),
}

impl From<Error> for LevelError {
    ghost from_gives = { λ e refusal. refusal ≡ Octets e };

    fn from(e: Error) -> LevelError {
        LevelError::Octets(e)
    }
}

/// A level, a number below 256.
#[derive(Debug, Clone, Copy, PartialEq, Eq)]
pub struct Level(pub u8);

impl Tagged for Level {
    const TAG: Tag = Tag::Integer;

    ghost TAG = { record { 0 = 2 } };
}

impl<'a> FromAny<'a> for Level {
    type Error = LevelError;

    ghost any_gives = { RefusedAs Octets LevelConverts };

    fn try_from_any(_alloc: Global, any: Any<'a>) -> Result<Level, LevelError> {
        match any.u8() {
            Ok(number) => Ok(Level(number)),
            Err(e) => Err(LevelError::Octets(e)),
        }
    }
}

impl CheckDerConstraints for Level {
    ghost check_gives = { IntegerCheckGives };

    fn check_constraints(any: &Any<'_>) -> Result<(), Error> {
        u8::check_constraints(any)
    }
}

impl DerAutoDerive for Level {}

impl HasKind for Level {
    type Kind = ElementKind;
}

impl LawfulElement for Level {
    ghost element = { level_element };

    ghost lawful = { holding_lawful level_number _ (integer_lawful (IsUnsigned 1) pos) };

    fn assert_value_valid(&self) {
        self.0.assert_value_valid();
    }
}

impl LawfulCheckBy<ElementKind> for Level {
    ghost checks_by_kind = { integer_checks };
}

impl<'a> LawfulBodyBy<'a, ElementKind, LevelError> for Level {
    ghost exact_by_kind = { refused_as_takes Octets LevelConverts level_element level_converts };

    ghost no_memory_by_kind = { refused_as_no_memory Octets LevelConverts level_element
        level_converts };
}

/// What reading a level by DER answers under a tag of any class and number is exact.
pub fn levels_under_tags_are_exact()
    ensures { (input : List ℕ) (answer : Result (List ℕ × TaggedParser Explicit Level LevelError)
        (Refusal LevelError)) → IsOctets input →
        ThenByDer (λ e refusal. refusal ≡ Octets e) (TakesWholeContent (DerGives IntegerCheckGives
        (RefusedAs Octets LevelConverts) (λ e refusal. refusal ≡ Octets e))
        (λ e refusal. refusal ≡ Octets e)) input answer →
        Exactly IsTruncatedIdentifier LevelByDer
        (λ parser. (identifier_of parser.header, pos parser.inner.0))
        (TellsMemory false (λ e refusal. refusal ≡ Octets e)) input answer }
{
    reader_is_exact_by_der::<TaggedParser<'_, Explicit, Level, LevelError>, LevelError>();
}
