//! How object identifiers are shown.
ghost use Rattle.std.specs.Prelude.{◌++◌, false};
ghost use Rattle.asn1_rs.specs.Oid.{oid_header, oid_octets, oid_value};
ghost use Rattle.asn1vec_answers.specs.Shown.{IsWritten, oid_text};

use crate::shown::Encoded;
use crate::text::{push_displayed, push_str};
use asn1_rs::Oid;
use std::alloc::AllocError;

impl Encoded for Oid<'_> {
    ghost text_of = { λ x. oid_text (oid_value x) };

    ghost Encodes = { λ x. IsWritten false (oid_header x ++ oid_octets x) };

    /// What `Display` prints, `-` for no octets. What was read is no relative one, so that is the text of
    /// `to_id_string`.
    fn show(&self, text: &mut Vec<u8>) -> Result<(), AllocError> {
        if self.as_bytes().is_empty() {
            return push_str(text, "-");
        }
        push_displayed(*text.allocator(), text, self)
    }

    fn is_told(&self) {}
}
