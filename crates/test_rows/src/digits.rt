//! Octets in hexadecimal digits.

use hex::FromHexError;
use std::alloc::Global;
use std::test::Fail;

/// The hexadecimal digits.
const DIGITS: [char; 16] = [
    '0', '1', '2', '3', '4', '5', '6', '7', '8', '9', 'a', 'b', 'c', 'd', 'e', 'f',
];

/// Appends octets in hexadecimal digits, `-` for none.
pub fn push_digits(text: &mut String, octets: &[u8]) -> Result<(), Fail> {
    if octets.is_empty() {
        text.push('-')?;
    }
    for octet in octets {
        text.push(DIGITS[usize::from(*octet / 16)])?;
        text.push(DIGITS[usize::from(*octet % 16)])?;
    }
    Ok(())
}

/// The octets that the digits stand for, `-` for none.
pub fn octets_of(alloc: Global, digits: &str) -> Result<Vec<u8>, FromHexError> {
    match digits {
        "-" => Ok(Vec::new(alloc)),
        _ => hex::decode(alloc, digits),
    }
}
