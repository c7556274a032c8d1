//! How elements of any type are shown.
ghost use Rattle.std.specs.Prelude.{◌≡◌, ◌<◌, ◌^◌, false, length};
ghost use Rattle.asn1_rs.specs.Prelude.{class_number, IsOctets};
ghost use Rattle.asn1_rs.specs.Any.Value.{element_of, ElementForm};
ghost use Rattle.asn1vec_answers.specs.Shown.{StrictEncoding, any_text, letter_of};

use crate::shown::Encoded;
use crate::text::{push_hexadecimal, push_number, push_str};
use asn1_rs::{Any, Class};
use std::alloc::AllocError;

/// The number of a class.
fn number_of(class: Class) -> u8
    ensures { result ≡ class_number class }
{
    class as u8
}

/// `c` for constructed, and `p` for primitive.
fn letter(constructed: bool) -> &'static str
    ensures { result.now ≡ letter_of constructed }
{
    if constructed { "c" } else { "p" }
}

/// What the type of octets says of them.
fn are_octets(octets: &[u8])
    ensures each { IsOctets octets.now }
    ensures counted { length octets.now < 2 ^ 64 }
{}

impl Encoded for Any<'_> {
    ghost text_of = { λ a. any_text (element_of a) };

    ghost Encodes = { λ a. StrictEncoding ElementForm false (element_of a) };

    /// The number of the class, the letter of the form, the tag number and the contents octets,
    /// joined by points.
    fn show(&self, text: &mut Vec<u8>) -> Result<(), AllocError> {
        let class = number_of(self.header.class());
        let form = letter(self.header.constructed());
        let number = self.header.tag().0;
        push_number(text, class)?;
        push_str(text, ".")?;
        push_str(text, form)?;
        push_str(text, ".")?;
        push_number(text, number)?;
        push_str(text, ".")?;
        push_hexadecimal(text, self.content)?;
        Ok(())
    }

    fn is_told(&self) {
        let _number = self.tag();
        are_octets(self.content);
    }
}
