//! How names of X.509 are shown: the texts of their relative names, parted by `/`. That of a relative name is the texts
//! of its attributes, parted by `+`.
ghost use Rattle.std.specs.Prelude.{◌≡◌, ◌++◌, OnOk};
ghost use Rattle.asn1_rs.specs.Any.Value.{element_of};
ghost use Rattle.asn1_rs.specs.Prelude.{whole_allocates, whole_octets, whole_refuses};
ghost use Rattle.asn1vec_answers.specs.Shown.{CameOfWriting, attribute_text, distinguished_name_text};
ghost use Rattle.asn1vec_answers.specs.Shown.{relative_name_text, any_encoding_text};
ghost use Rattle.x509_name.specs.Attribute.{attribute_value};
ghost use Rattle.x509_name.specs.Name.{rows_of};
ghost use Rattle.x509_name.specs.RelativeName.{listed_values};

use crate::lists::push_joined;
use crate::shown::Encoded;
use crate::text::{push_hexadecimal, push_str};
use asn1_rs::{Any, strict_vec};
use std::alloc::AllocError;
use x509_name::{AttributeTypeAndValue, Name, RelativeDistinguishedName};

/// Appends what is written of the value of an attribute, in digits.
// The memory is the engine's own: where it is refused, the run ends.
fn push_element(text: &mut Vec<u8>, value: &Any<'_>) -> Result<(), AllocError>
    ensures { OnOk result (text.new.items ≡ text.old.items ++
        any_encoding_text (element_of value.now)) }
{
    match strict_vec(*text.allocator(), value) {
        Ok(octets) => push_hexadecimal(text, octets.as_slice()),
        Err(_) => Err(AllocError),
    }
}

/// Its identifier, `=`, and what is written of its value.
impl Encoded for AttributeTypeAndValue<'_> {
    ghost text_of = { λ a. attribute_text (attribute_value a) };

    ghost Encodes = { λ a. CameOfWriting (whole_allocates Self.writing)
        (whole_octets Self.writing a) (whole_refuses Self.writing a) };

    fn show(&self, text: &mut Vec<u8>) -> Result<(), AllocError> {
        Encoded::show(&self.oid, text)?;
        push_str(text, "=")?;
        push_element(text, &self.value)
    }

    fn is_told(&self) {}
}

/// Its attributes, in their order.
impl Encoded for RelativeDistinguishedName<'_> {
    ghost text_of = { λ r. relative_name_text (listed_values r) };

    ghost Encodes = { λ r. CameOfWriting (whole_allocates Self.writing)
        (whole_octets Self.writing r) (whole_refuses Self.writing r) };

    fn show(&self, text: &mut Vec<u8>) -> Result<(), AllocError> {
        push_joined(self.v.iter(), "+", text)
    }

    fn is_told(&self) {}
}

/// Its relative names, in their order, `-` for none.
// The text is no function of the value, as a relative name keeps the order in which its attributes were read.
impl Encoded for Name<'_> {
    ghost text_of = { λ n. distinguished_name_text (rows_of n) };

    ghost Encodes = { λ n. CameOfWriting (whole_allocates Self.writing)
        (whole_octets Self.writing n) (whole_refuses Self.writing n) };

    fn show(&self, text: &mut Vec<u8>) -> Result<(), AllocError> {
        if self.rdn_sequence.is_empty() {
            return push_str(text, "-");
        }
        push_joined(self.rdn_sequence.iter(), "/", text)
    }

    fn is_told(&self) {}
}
