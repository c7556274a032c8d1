//! How strings of characters are shown: the octets of their text in UTF-8, in hexadecimal digits.
ghost use Rattle.std.specs.Prelude.{false};
ghost use Rattle.asn1_rs.specs.CodedStrings.{coded_string_leaf};
ghost use Rattle.asn1_rs.specs.Strings.{string_leaf, string_text};
ghost use Rattle.asn1vec_answers.specs.Shown.{IsWritten, in_hexadecimal};
ghost use Rattle.asn1vec_answers.specs.Types.{leaf_octets};

use crate::shown::Encoded;
use crate::text::push_hexadecimal;
use asn1_rs::author::{CharacterCode, CodedString, Repertoire, RestrictedString, StringKind};
use std::alloc::AllocError;

impl<K: StringKind<Characters: Repertoire>> Encoded for RestrictedString<'_, K> {
    ghost text_of = { λ x. in_hexadecimal (string_text x) };

    ghost Encodes = { λ x. IsWritten false
        (leaf_octets (string_leaf {K = K} (K.Number.TAG).0 K.Characters.IsText) (string_text x)) };

    fn show(&self, text: &mut Vec<u8>) -> Result<(), AllocError> {
        push_hexadecimal(text, self.as_str().as_bytes())
    }

    fn is_told(&self) {}
}

impl<K: StringKind<Characters: CharacterCode>> Encoded for CodedString<'_, K> {
    ghost text_of = { λ x. in_hexadecimal (string_text x) };

    ghost Encodes = { λ x. IsWritten false
        (leaf_octets (coded_string_leaf {K = K} (K.Number.TAG).0 K.Characters.octets_of)
        (string_text x)) };

    fn show(&self, text: &mut Vec<u8>) -> Result<(), AllocError> {
        push_hexadecimal(text, self.as_str().as_bytes())
    }

    fn is_told(&self) {}
}
