//! How integers are shown: in decimals.
#![tactic(auto, using(crate::proofs::ShownLaws::strict_unsigned, crate::proofs::ShownLaws::strict_signed))]

ghost use Rattle.std.specs.Prelude.{ℕ, List};
ghost use Rattle.asn1_rs.specs.Grammar.Form.{IsStrict};
ghost use Rattle.asn1vec_answers.specs.Shown.{StrictEncoding};
ghost use Rattle.asn1_rs.specs.Prelude.{whole_allocates};

use crate::shown::Encoded;
use crate::text::push_number;
use asn1_rs::laws::LawfulWrite;
use itoa::Integer;
use std::alloc::AllocError;

/// An integer of some width, each of which has a strict encoding.
pub(crate) trait Number: Integer + LawfulWrite {
    /// States that the number has a strict encoding. Its body only names what the type says of the number.
    fn is_encoded(&self)
        ensures { (o : List ℕ) × IsStrict Self.grammar.Form (Self.grammar.value self.now) o };
}

impl<T: Number> Encoded for T {
    ghost text_of = { T.text };

    ghost Encodes = { λ x.
        StrictEncoding T.grammar.Form
        (whole_allocates T.writing)
        (T.grammar.value x) };

    fn show(&self, text: &mut Vec<u8>) -> Result<(), AllocError> {
        push_number(text, *self)
    }

    fn is_told(&self) {
        self.is_encoded();
    }
}

impl Number for u8 {
    fn is_encoded(&self) {
        let _value = *self;
    }
}

impl Number for u16 {
    fn is_encoded(&self) {
        let _value = *self;
    }
}

impl Number for u32 {
    fn is_encoded(&self) {
        let _value = *self;
    }
}

impl Number for u64 {
    fn is_encoded(&self) {
        let _value = *self;
    }
}

impl Number for u128 {
    fn is_encoded(&self) {
        let _value = *self;
    }
}

impl Number for i8 {
    fn is_encoded(&self) {
        let _value = *self;
    }
}

impl Number for i16 {
    fn is_encoded(&self) {
        let _value = *self;
    }
}

impl Number for i32 {
    fn is_encoded(&self) {
        let _value = *self;
    }
}

impl Number for i64 {
    fn is_encoded(&self) {
        let _value = *self;
    }
}

impl Number for i128 {
    fn is_encoded(&self) {
        let _value = *self;
    }
}
