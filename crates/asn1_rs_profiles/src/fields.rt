//! Which strings may be fields of structs: octet strings, and strings of characters in UTF-8.
//!
//! Each has an impl of its own, since the laws of a kind are no part of data.
ghost use Rattle.std.specs.Prelude.{IsUtf8, refl};
ghost use Rattle.std.proofs.Common.{lit<};
ghost use Rattle.asn1_rs_profiles.specs.Joined.Lawful.{joined_type};
ghost use Rattle.asn1_rs_profiles.specs.Primitive.Laws.{primitive_type};

use crate::joined::{Joined, OctetKind};
use crate::primitive::Primitive;
use asn1_rs::author::{LawfulType, Utf8Kind};

impl LawfulType for Joined<'_, OctetKind> {
    ghost type_laws = { joined_type 4 (λ octets. Unit {0}) (lit< tt) refl };
}

impl LawfulType for Joined<'_, Utf8Kind> {
    ghost type_laws = { joined_type 12 IsUtf8 (lit< tt) refl };
}

impl LawfulType for Primitive<'_, OctetKind> {
    ghost type_laws = { primitive_type 4 (λ octets. Unit {0}) (lit< tt) refl };
}

impl LawfulType for Primitive<'_, Utf8Kind> {
    ghost type_laws = { primitive_type 12 IsUtf8 (lit< tt) refl };
}
