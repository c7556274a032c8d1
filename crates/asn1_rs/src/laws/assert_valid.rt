//! Values in hand: which are in DER form whatever they are, and what is said of sets, of octets and of texts.
ghost use Rattle.std.specs.Prelude.{◌≡◌, map, IsUtf8};
ghost use Rattle.std.specs.List.{All};
ghost use Rattle.x690.specs.Octets.{IsOctets};
ghost use Rattle.x690.specs.Collections.{AllDiffer};
ghost use Rattle.asn1_rs.specs.Set.{SetInDer, members, set_of};

use crate::kinds::collections::LawfulMembers;
use crate::laws::LawfulItem;

/// A lawful type whose items in hand are all in DER form.
///
/// So [`write_strict`](crate::write_strict) and [`strict_vec`](crate::strict_vec) write the one strict encoding of
/// each.
pub trait AlwaysDer: LawfulItem {
    /// States of an item in hand that its value is in DER form. Each item of a list is asked in turn.
    fn is_der(&self)
        ensures { Self.grammar.IsDer (Self.grammar.value self.now) };
}

/// What is stated of each item of a list.
pub trait States<T> {
    /// What is stated of an item.
    ghost says: { T → Type 0 };

    /// States it of an item in hand.
    fn state(item: &T)
        ensures { says item.now };
}

/// States that the value of an item is one of its type's.
#[derive(Debug)]
pub struct OfValue;

impl<T: LawfulItem> States<T> for OfValue {
    ghost says = { λ x. T.grammar.IsValue (T.grammar.value x) };

    fn state(item: &T) {
        item.has_value();
    }
}

/// States that it is in DER form.
#[derive(Debug)]
pub struct OfDer;

impl<T: AlwaysDer> States<T> for OfDer {
    ghost says = { λ x. T.grammar.IsDer (T.grammar.value x) };

    fn state(item: &T) {
        item.is_der();
    }
}

/// Octets in hand are octets: each is below 256.
pub fn assert_octets_valid(octets: &[u8])
    ensures { IsOctets octets.now }
{}

/// A text in hand is in UTF-8.
pub fn assert_text_valid(text: &str)
    ensures { IsUtf8 text.now }
{}

/// The value of a `BTreeSet` or a `HashSet` in hand, which is `members` of its keys, is the set of their values. It is
/// in DER form where each of these is. No member is looked at.
// Std's `len` says that the keys are those of a set.
pub fn assert_members_valid<S, T>(set: &S)
where
    S: LawfulMembers<T>,
    T: LawfulItem,
    ensures value { members S.test T.grammar.value (S.items set.now) ≡
        set_of (map T.grammar.value (S.items set.now)) }
    ensures differ { AllDiffer (map T.grammar.value (S.items set.now)) }
    ensures der { All T.grammar.IsDer (map T.grammar.value (S.items set.now)) →
        SetInDer set_of AllDiffer T.grammar.IsDer
        (members S.test T.grammar.value (S.items set.now)) }
{
    set.members_pass();
}
