//! Texts of answers, to the end of which more is written. They are octets, since digits are written
//! into them in place.
ghost use Rattle.std.specs.Prelude.{◌≡◌, ◌++◌, IfSome, OnOk};
ghost use Rattle.asn1vec_answers.specs.Shown.{in_hexadecimal};

use itoa::{Buffer, Integer};
use std::alloc::{AllocError, Global};
use std::fmt::{self, Display, Write};
use std::mem;

/// Appends a text.
pub(crate) fn push_str(text: &mut Vec<u8>, part: &str) -> Result<(), AllocError>
    ensures { OnOk result (text.new.items ≡ text.old.items ++ part.now) }
{
    text.extend_from_slice(part.as_bytes())
}

/// Appends a number in decimals.
pub(crate) fn push_number<I: Integer>(text: &mut Vec<u8>, number: I) -> Result<(), AllocError>
    ensures { OnOk result (text.new.items ≡ text.old.items ++ I.text number) }
{
    let mut buffer = Buffer::new();
    text.extend_from_slice(buffer.format(number).as_bytes())
}

/// Appends octets in hexadecimal digits of lower case, `-` for none.
pub(crate) fn push_hexadecimal(text: &mut Vec<u8>, octets: &[u8]) -> Result<(), AllocError>
    ensures { OnOk result (text.new.items ≡ text.old.items ++ in_hexadecimal octets.now) }
{
    if octets.is_empty() {
        return push_str(text, "-");
    }
    let start = text.len();
    let Some(digits) = octets.len().checked_mul(2) else {
        return Err(AllocError);
    };
    let Some(end) = start.checked_add(digits) else {
        return Err(AllocError);
    };
    text.resize(end, 0)?;
    match hex::encode_to_slice(octets, &mut text.as_mut_slice()[start..]) {
        Ok(()) => Ok(()),
        Err(_) => Err(AllocError),
    }
}

/// Octets, to the end of which texts are written.
#[derive(Drop)]
struct Growing {
    octets: Vec<u8>,
}

impl Write for Growing {
    ghost write_str_gives = { λ before part after.
        after.octets.items ≡ before.octets.items ++ part };

    fn write_str(&mut self, part: &str) -> fmt::Result {
        match self.octets.extend_from_slice(part.as_bytes()) {
            Ok(()) => Ok(()),
            Err(_) => Err(fmt::Error),
        }
    }
}

/// Appends what `Display` prints.
pub(crate) fn push_displayed<T: Display>(
    alloc: Global,
    text: &mut Vec<u8>,
    shown: &T,
) -> Result<(), AllocError>
    ensures { OnOk result
        (IfSome (T.output shown.now) (λ part. text.new.items ≡ text.old.items ++ part)) }
{
    let mut growing = Growing {
        octets: mem::replace(text, Vec::new(alloc)),
    };
    let answer = growing.write(shown);
    *text = growing.octets;
    match answer {
        Ok(()) => Ok(()),
        Err(_) => Err(AllocError),
    }
}
