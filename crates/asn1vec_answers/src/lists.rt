//! How lists and sets are shown: the texts of their items, parted by commas, in brackets.
ghost use Rattle.std.specs.Prelude.{◌≡◌, ◌++◌, IfOk, List, OnOk, length, map, true};
ghost use Rattle.std.specs.Fmt.{signed_decimal};
ghost use Rattle.std.specs.Ordering.{int_cmp, int_eq};
ghost use Rattle.x690.specs.Signed.{IsSigned};
ghost use Rattle.asn1_rs.specs.Integer.{IntegerForm};
ghost use Rattle.std.specs.Iterator.{AlwaysYields, IsFinite};
ghost use Rattle.std.specs.List.{join_by};
ghost use Rattle.x690.specs.Collections.{AllDiffer, AnyList, multiset};
ghost use Rattle.asn1_rs.specs.Prelude.{items_of, MayRefuse, whole_allocates, whole_octets, whole_refuses};
ghost use Rattle.asn1_rs.specs.Lists.{ListForm};
ghost use Rattle.asn1_rs.specs.Set.{SetForm, ascends, is_other, members, set_of};
ghost use Rattle.asn1_rs.specs.Sequence.SequenceOf.{sequence_items};
ghost use Rattle.asn1vec_answers.specs.Shown.{AllowsOctets, AllowsRefusals, StrictEncodingIfAny, sorted_keys};
ghost use Rattle.asn1vec_answers.specs.Shown.{list_text};

use crate::shown::Encoded;
use crate::text::push_str;
use asn1_rs::laws::{AlwaysDer, LawfulMember, LawfulWrite};
use asn1_rs::{SequenceOf, SetOf};
use std::alloc::{AllocError, Global};
use std::collections::{BTreeSet, HashSet};

/// States of a value in DER form what may come of writing it.
pub(crate) fn writing_is_strict<T: LawfulWrite>(x: &T)
    requires { T.grammar.IsDer (T.grammar.value x.now) }
    ensures written { AllowsOctets T.writing x.now (StrictEncodingIfAny T.grammar.Form
        (whole_allocates T.writing) (T.grammar.value x.now)) }
    ensures refused { AllowsRefusals (MayRefuse (whole_allocates T.writing)
        (length (whole_octets T.writing x.now))) (StrictEncodingIfAny T.grammar.Form
        (whole_allocates T.writing) (T.grammar.value x.now)) }
    ensures own { AllowsRefusals (whole_refuses T.writing x.now)
        (StrictEncodingIfAny T.grammar.Form
        (whole_allocates T.writing) (T.grammar.value x.now)) }
{}

/// Appends items, parted by a sign.
pub(crate) fn push_joined<'a, T, I>(
    items: I,
    sign: &str,
    text: &mut Vec<u8>,
) -> Result<(), AllocError>
where
    T: Encoded + 'a,
    I: Iterator<Item = &'a T> + Drop,
    requires can { I.can_next items }
    requires ends { IsFinite (I.remaining items) }
    ensures { (xs : List T) → AlwaysYields I.next_gives (λ r. r.now) items xs →
        OnOk result (text.new.items ≡ text.old.items ++ join_by T.text_of sign.now xs) }
{
    let mut separator = "";
    for item in items {
        push_str(text, separator)?;
        item.show(text)?;
        separator = sign;
    }
    Ok(())
}

/// Appends items, parted by commas, in brackets.
fn push_items<'a, T, I>(items: I, text: &mut Vec<u8>) -> Result<(), AllocError>
where
    T: Encoded + 'a,
    I: Iterator<Item = &'a T> + Drop,
    requires can { I.can_next items }
    requires ends { IsFinite (I.remaining items) }
    ensures { (xs : List T) → AlwaysYields I.next_gives (λ r. r.now) items xs →
        OnOk result (text.new.items ≡ text.old.items ++ list_text T.text_of xs) }
{
    push_str(text, "[")?;
    push_joined(items, ",", text)?;
    push_str(text, "]")
}

impl<T: Encoded + AlwaysDer> Encoded for Vec<T> {
    ghost text_of = { λ v. list_text T.text_of v.items };

    ghost Encodes = { λ v.
        StrictEncodingIfAny (ListForm 16 T.grammar.Form) (whole_allocates Self.writing)
        (map T.grammar.value v.items) };

    fn show(&self, text: &mut Vec<u8>) -> Result<(), AllocError> {
        push_items(self.iter(), text)
    }

    fn is_told(&self) {
        self.is_der();
        writing_is_strict(self);
    }
}

impl<T: Encoded + AlwaysDer> Encoded for SequenceOf<T> {
    ghost text_of = { λ s. list_text T.text_of (sequence_items s) };

    ghost Encodes = { λ s.
        StrictEncodingIfAny (ListForm 16 T.grammar.Form) (whole_allocates Self.writing)
        (map T.grammar.value (sequence_items s)) };

    fn show(&self, text: &mut Vec<u8>) -> Result<(), AllocError> {
        push_items(self.as_slice().iter(), text)
    }

    fn is_told(&self) {
        self.is_der();
        writing_is_strict(self);
    }
}

// The text is no function of the value, as a `SetOf` keeps the order read. Two readings are shown alike by a proof
// about the items that the reader gave (`IsOneReader`). They are written alike by a proof about the value.
impl<T: Encoded + AlwaysDer> Encoded for SetOf<T> {
    ghost text_of = { λ s. list_text T.text_of (items_of s) };

    ghost Encodes = { λ s.
        StrictEncodingIfAny (SetForm multiset AnyList T.grammar.Form) true
        (multiset (map T.grammar.value (items_of s))) };

    fn show(&self, text: &mut Vec<u8>) -> Result<(), AllocError> {
        push_items(self.as_slice().iter(), text)
    }

    fn is_told(&self) {
        self.is_der();
        writing_is_strict(self);
    }
}

/// Its members ascend.
impl<T: Encoded + AlwaysDer + LawfulMember + Ord> Encoded for BTreeSet<T> {
    ghost text_of = { λ s. list_text T.text_of s.keys };

    ghost Encodes = { λ s.
        StrictEncodingIfAny (SetForm set_of AllDiffer T.grammar.Form) true
        (members (ascends T.cmp T.eq) T.grammar.value s.keys) };

    fn show(&self, text: &mut Vec<u8>) -> Result<(), AllocError> {
        push_items(self.iter(), text)
    }

    fn is_told(&self) {
        self.is_der();
        writing_is_strict(self);
    }
}

/// The members in ascending order.
// The function takes the row that is std's model of the set. So the text follows from the members alone. The memory is
// the engine's own: where it is refused, the run ends.
fn ascending(alloc: Global, set: &HashSet<i8>) -> Result<BTreeSet<i8>, AllocError>
    ensures { IfOk result (λ ordered. ordered.keys ≡ sorted_keys int_cmp set.now.keys) }
{
    BTreeSet::from_iter(alloc, set.iter().copied())
}

/// Its members stand in no order; they are shown as they ascend.
impl Encoded for HashSet<i8> {
    ghost text_of = { λ s. list_text signed_decimal (sorted_keys int_cmp s.keys) };

    ghost Encodes = { λ s.
        StrictEncodingIfAny (SetForm set_of AllDiffer (IntegerForm (IsSigned 1))) true
        (members (is_other int_eq) (λ n. n) s.keys) };

    fn show(&self, text: &mut Vec<u8>) -> Result<(), AllocError> {
        let ordered = ascending(*text.allocator(), self)?;
        push_items(ordered.iter(), text)
    }

    fn is_told(&self) {
        self.is_der();
        writing_is_strict(self);
    }
}
