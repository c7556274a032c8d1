//! Types whose elements are told by their tag numbers: by one, or by one of several, as those of a choice are.
ghost use Rattle.std.specs.Prelude.{◌≡◌, ◌↔◌, ◌∷◌, [], ℕ, List, IsTrue};
ghost use Rattle.x690.specs.Faults.{Violation};
ghost use Rattle.x690.specs.Rules.{Rule};
ghost use Rattle.asn1_headers.specs.Answers.{seen};
ghost use Rattle.asn1_headers.specs.Header.Reading.{HeaderGives, refusal_of};
ghost use Rattle.asn1_headers.specs.declared.error.Error.{Error};
ghost use Rattle.asn1_rs.specs.Laws.Structs.Fields.{one_number};
ghost use Rattle.asn1_rs.specs.Structs.{BeginsApart, FormNumbers, among, is_one_of};

use crate::laws::{Grammar, LawfulTagged};
use asn1_headers::error::{Error, ParseResult};
use asn1_headers::header::Header;
use asn1_headers::tag::Tag;

/// A type whose elements have one of its tag numbers. So a field of it is told by them.
///
/// A type with a tag number of its own has it. The author of a choice that is a field writes it:
///
///     impl ToldByNumber for Time {
///         ghost numbers = { numbers_of_choice ⟦<Time as LawfulChoice>⟧.laws };
///
///         fn has_number(tag: Tag) -> bool {
///             TimeArms::is_of_an_arm(tag)
///         }
///
///         ghost told_by_number = { choice_numbers ⟦<Time as LawfulChoice>⟧.laws };
///     }
pub trait ToldByNumber: Grammar {
    /// Its tag numbers.
    ghost numbers: { List ℕ };

    /// Whether this is one of them.
    fn has_number(tag: Tag) -> bool
        ensures { result ≡ is_one_of tag.0 numbers };

    /// Strict parts have one of them.
    ghost told_by_number: { FormNumbers Self.grammar.Form Self.numbers };
}

impl<T: LawfulTagged> ToldByNumber for T {
    ghost numbers = { (T.TAG).0 ∷ [] };

    #[tactic(auto, using(crate::specs::Laws::Structs::Numbers::is_the_one))]
    fn has_number(tag: Tag) -> bool {
        T::TAG.0 == tag.0
    }

    ghost told_by_number = { one_number T.grammar.Form (T.TAG).0 T.tag_number };
}

/// Whether a field of the type is left out of the octets, at whose front a header was read. It is where there are no
/// octets, or the header has none of its tag numbers.
pub(crate) fn is_left_out<T: ToldByNumber>(
    octets: &[u8],
    read: ParseResult<'_, Header<'_>, Error>,
) -> bool
    ensures { (rule : Rule) (refuses : Violation → Error)
        → HeaderGives rule (refusal_of refuses) octets.now (seen read.entry)
        → IsTrue result ↔ BeginsApart rule (among T.numbers) octets.now }
{
    match read {
        Ok((_, header)) => !T::has_number(header.tag()),
        Err(_) => octets.is_empty(),
    }
}
