//! How values under a tag are shown: as they are without it.
ghost use Rattle.asn1_rs.specs.Tagged.Explicit.{ExplicitForm};
ghost use Rattle.asn1_rs.specs.Tagged.Implicit.{ImplicitForm};
ghost use Rattle.asn1vec_answers.specs.Shown.{StrictEncodingIfAny};
ghost use Rattle.asn1_rs.specs.Prelude.{whole_allocates};

use crate::lists::writing_is_strict;
use crate::shown::Encoded;
use asn1_rs::laws::{AlwaysDer, TakesClass};
use asn1_rs::{Error, TaggedExplicit, TaggedImplicit};
use std::alloc::AllocError;

impl<T: Encoded + AlwaysDer, const TAG: u32> Encoded for TaggedExplicit<T, Error, TAG> {
    ghost text_of = { λ t. T.text_of t.inner };

    ghost Encodes = { λ t.
        StrictEncodingIfAny (ExplicitForm 2 TAG T.grammar.Form)
        (whole_allocates Self.writing)
        (T.grammar.value t.inner) };

    fn show(&self, text: &mut Vec<u8>) -> Result<(), AllocError> {
        self.as_inner().show(text)
    }

    fn is_told(&self) {
        self.is_der();
        writing_is_strict(self);
    }
}

impl<T: Encoded + AlwaysDer + TakesClass<2>, const TAG: u32> Encoded
    for TaggedImplicit<T, Error, TAG> {
    ghost text_of = { λ t. T.text_of t.inner };

    ghost Encodes = { λ t.
        StrictEncodingIfAny (ImplicitForm 2 TAG T.grammar.Form)
        (whole_allocates Self.writing)
        (T.grammar.value t.inner) };

    fn show(&self, text: &mut Vec<u8>) -> Result<(), AllocError> {
        self.as_inner().show(text)
    }

    fn is_told(&self) {
        self.is_der();
        writing_is_strict(self);
    }
}
