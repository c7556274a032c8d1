//! The laws of the words of a table.
ghost use Rattle.std.specs.Prelude.{ℕ, suc, List, ◌≡◌, ◌≤◌, ◌++◌, true, Some, slice_get};
ghost use Rattle.x690.specs.Joined.{IsPrefixFree};
ghost use Rattle.std.specs.declared.vec.Vec.{Vec};
ghost use Rattle.std.specs.declared.alloc.Global.{Global};
ghost use Rattle.asn1_schema.specs.declared.schema.Node.{Node};
ghost use Rattle.asn1_schema.specs.declared.schema.Kind.TheVariants as kinds;
ghost use Rattle.asn1_schema.specs.declared.tape.Item.{Item};
ghost use Rattle.asn1_schema.specs.Encoding.{Encodes, IsReadAs};
ghost use Rattle.asn1_schema.specs.Grammar.{Word};
ghost use Rattle.asn1_schema.specs.Values.{Value, chosen};
ghost use Rattle.asn1_schema.specs.Tape.{Kept, Mark, tape_of};
ghost use Rattle.asn1_schema.specs.Rules.{der, ber, strict};
ghost use Rattle.asn1_schema.specs.Sound.{is_sound};

/// Of each type of each sound table, octets begin with one word at most, which has one value; and no word is empty.
pub fn words_by_der_are_determined()
    ensures { (table : List Node) → is_sound table ≡ true → (depth t : ℕ)
        → IsPrefixFree (Word der table depth t) }
{}

/// The same of strict words.
pub fn strict_words_are_determined()
    ensures { (table : List Node) → is_sound table ≡ true → (depth t : ℕ)
        → IsPrefixFree (Word strict table depth t) }
{}

/// The same by BER, with elements of indefinite length nested to a depth.
pub fn words_by_ber_are_determined()
    ensures { (table : List Node) → is_sound table ≡ true
        → (max depth t : ℕ) → IsPrefixFree (Word (ber max) table depth t) }
{}

/// A value has one strict word at most, which no other value of the type has.
pub fn values_have_one_strict_word()
    ensures { (table : List Node) → is_sound table ≡ true → (depth t : ℕ) (x y : List ℕ) (v : Value)
        → Word strict table depth t x v → Word strict table depth t y v → x ≡ y }
{}

/// A strict word is a word by DER, with the same value.
pub fn strict_words_are_words_by_der()
    ensures { (table : List Node) (d e t : ℕ) → d ≤ e → (o : List ℕ) (v : Value)
        → Word strict table d t o v → Word der table e t o v }
{}

/// A word by DER is a word by BER, with the same value.
pub fn words_by_der_are_words_by_ber()
    ensures { (table : List Node) (max d e t : ℕ) → d ≤ e → (o : List ℕ) (v : Value)
        → Word der table d t o v → Word (ber (suc max)) table e t o v }
{}

/// A strict word of a depth is one of each greater depth, with the same value.
pub fn strict_words_last()
    ensures { (table : List Node) → is_sound table ≡ true → (d e t : ℕ) → d ≤ e → (o : List ℕ)
        (v : Value) → Word strict table d t o v → Word strict table e t o v }
{}

/// A word by BER of a depth is one of each greater depth, with the same value.
pub fn words_by_ber_last()
    ensures { (table : List Node) (max d e t : ℕ) → d ≤ e → (o : List ℕ) (v : Value)
        → Word (ber max) table d t o v → Word (ber max) table e t o v }
{}

/// What [`encode_der`](crate::encode::encode_der) wrote of a tape, before any rest, is read by DER as the value of the
/// tape, and as no other.
pub fn encodings_are_read_by_der()
    ensures { (table : List Node) → is_sound table ≡ true → (depth t : ℕ) (tape : List Item)
        (old new : List ℕ) → Encodes (Word strict table depth t) tape old new
        → IsReadAs (Word der table depth t) tape new old }
{}

/// The same by BER.
pub fn encodings_are_read_by_ber()
    ensures { (table : List Node) → is_sound table ≡ true → (max depth t : ℕ) (tape : List Item)
        (old new : List ℕ) → Encodes (Word strict table depth t) tape old new
        → IsReadAs (Word (ber (suc max)) table depth t) tape new old }
{}

/// An element of an arm is one of the choice.
pub fn choices_have_their_arms()
    ensures { (table : List Node) → is_sound table ≡ true
        → (depth t : ℕ) (node : Node) (arms : Vec ℕ Global) (k a : ℕ)
        → slice_get table t ≡ Some node → node.kind ≡ kinds.Choice arms
        → slice_get arms.items k ≡ Some a → (o : List ℕ) (v : Value)
        → Word strict table depth a o v → Word strict table depth t o (chosen k v) }
{}

/// And an element of a choice is one of an arm.
pub fn choices_have_no_others()
    ensures { (table : List Node) → is_sound table ≡ true
        → (depth t : ℕ) (node : Node) (arms : Vec ℕ Global) → slice_get table t ≡ Some node
        → node.kind ≡ kinds.Choice arms → (o : List ℕ) (v : Value) → Word strict table depth t o v
        → (k : ℕ) × (w : Value) × (a : ℕ) × (v ≡ chosen k w) × (slice_get arms.items k ≡ Some a)
        × Word strict table depth a o w }
{}

/// A tape begins with that of one value, with its strings in one row of pieces, and one rest follows.
pub fn tapes_begin_with_one_value()
    ensures { (v w : Kept) (r s : List Mark) → tape_of v ++ r ≡ tape_of w ++ s → (v ≡ w) × (r ≡ s) }
{}

/// And it ends with that of one value, behind one front.
pub fn tapes_end_with_one_value()
    ensures { (v w : Kept) (r s : List Mark) → r ++ tape_of v ≡ s ++ tape_of w → (v ≡ w) × (r ≡ s) }
{}
