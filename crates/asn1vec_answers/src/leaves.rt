//! How values of leaf types are shown, with the octets that are written for them, and the end of contents.
ghost use Rattle.std.specs.Prelude.{◌≡◌, false, None, codes, decimal};
ghost use Rattle.asn1_rs.specs.BitString.{bit_string_leaf, bits_of_string};
ghost use Rattle.asn1_rs.specs.Boolean.{bool_leaf};
ghost use Rattle.asn1_rs.specs.Enumerated.{enumerated_leaf};
ghost use Rattle.asn1_rs.specs.Integer.Octets.{any_integer_leaf, integer_octets};
ghost use Rattle.asn1_rs.specs.Kept.{kept_octets, sequence_leaf, set_leaf};
ghost use Rattle.asn1_rs.specs.Null.{null_leaf};
ghost use Rattle.asn1_rs.specs.OctetString.{octet_string_leaf, string_octets};
ghost use Rattle.asn1vec_answers.specs.Shown.{IsWritten, bit_string_text, in_hexadecimal, boolean_text};
ghost use Rattle.asn1vec_answers.specs.Types.{leaf_octets};

use crate::shown::{Encoded, Shown};
use crate::text::{push_hexadecimal, push_number, push_str};
use asn1_rs::{BitString, EndOfContent, Enumerated, Integer, Null, OctetString, Sequence, Set};
use std::alloc::{AllocError, Global};

impl Encoded for bool {
    ghost text_of = { boolean_text };

    ghost Encodes = { λ x. IsWritten false (leaf_octets bool_leaf x) };

    fn show(&self, text: &mut Vec<u8>) -> Result<(), AllocError> {
        push_str(text, if *self { "true" } else { "false" })
    }

    fn is_told(&self) {}
}

impl Encoded for Null {
    ghost text_of = { λ _. codes "null" };

    ghost Encodes = { λ _. IsWritten false (leaf_octets null_leaf tt) };

    fn show(&self, text: &mut Vec<u8>) -> Result<(), AllocError> {
        push_str(text, "null")
    }

    fn is_told(&self) {}
}

impl Encoded for Enumerated {
    ghost text_of = { λ x. decimal x.0 };

    ghost Encodes = { λ x. IsWritten false (leaf_octets enumerated_leaf x.0) };

    fn show(&self, text: &mut Vec<u8>) -> Result<(), AllocError> {
        push_number(text, self.0)
    }

    fn is_told(&self) {}
}

impl Encoded for Integer<'_> {
    ghost text_of = { λ x. in_hexadecimal (integer_octets x) };

    ghost Encodes = { λ x. IsWritten false (leaf_octets any_integer_leaf (integer_octets x)) };

    fn show(&self, text: &mut Vec<u8>) -> Result<(), AllocError> {
        push_hexadecimal(text, self.as_bytes())
    }

    fn is_told(&self) {}
}

impl Encoded for OctetString<'_> {
    ghost text_of = { λ x. in_hexadecimal (string_octets x) };

    ghost Encodes = { λ x. IsWritten false (leaf_octets octet_string_leaf (string_octets x)) };

    fn show(&self, text: &mut Vec<u8>) -> Result<(), AllocError> {
        push_hexadecimal(text, self.as_bytes())
    }

    fn is_told(&self) {}
}

impl Encoded for BitString<'_> {
    ghost text_of = { λ x. bit_string_text (bits_of_string x) };

    ghost Encodes = { λ x. IsWritten false (leaf_octets bit_string_leaf (bits_of_string x)) };

    fn show(&self, text: &mut Vec<u8>) -> Result<(), AllocError> {
        push_number(text, self.unused_bits)?;
        push_str(text, ":")?;
        push_hexadecimal(text, self.as_bytes())
    }

    fn is_told(&self) {}
}

impl Encoded for Sequence<'_> {
    ghost text_of = { λ x. in_hexadecimal (kept_octets x) };

    ghost Encodes = { λ x. IsWritten false (leaf_octets sequence_leaf (kept_octets x)) };

    fn show(&self, text: &mut Vec<u8>) -> Result<(), AllocError> {
        push_hexadecimal(text, self.as_bytes())
    }

    fn is_told(&self) {}
}

impl Encoded for Set<'_> {
    ghost text_of = { λ x. in_hexadecimal (kept_octets x) };

    ghost Encodes = { λ x. IsWritten false (leaf_octets set_leaf (kept_octets x)) };

    fn show(&self, text: &mut Vec<u8>) -> Result<(), AllocError> {
        push_hexadecimal(text, self.as_bytes())
    }

    fn is_told(&self) {}
}

/// It has no writer, so nothing is said of its encoding.
impl Shown for EndOfContent {
    ghost text_of = { λ _. codes "eoc" };

    ghost Encodes = { λ _ encoding. encoding ≡ None };

    fn show(&self, text: &mut Vec<u8>) -> Result<(), AllocError> {
        push_str(text, "eoc")
    }

    fn tell_encoding(
        &self,
        _alloc: Global,
        _buffer: &mut Vec<u8>,
        _text: &mut Vec<u8>,
    ) -> Result<(), AllocError> {
        Ok(())
    }
}
