//! Words, numbers and columns at the end of a text.
ghost use Rattle.std.specs.Prelude.{◌≡◌, ◌≤◌, ◌++◌, length, take, drop, OnOk};
ghost use Rattle.hex.specs.Hex.{encode_lower};
ghost use Rattle.asn1_words.specs.Words.{truncated_text, left_out_text, spaces, right, left, number_text};

use itoa::Buffer;
use std::alloc::AllocError;

/// The digits of base 16.
const DIGITS: [u8; 16] = *b"0123456789abcdef";

/// Appends a text.
pub fn push_str(text: &mut Vec<u8>, part: &str) -> Result<(), AllocError>
    ensures { OnOk result (text.new.items ≡ text.old.items ++ part.now) }
{
    text.extend_from_slice(part.as_bytes())
}

/// Appends so many spaces.
pub fn push_spaces(text: &mut Vec<u8>, count: usize) -> Result<(), AllocError>
    ensures { OnOk result (text.new.items ≡ text.old.items ++ spaces count) }
{
    let Some(end) = text.len().checked_add(count) else {
        return Err(AllocError);
    };
    text.resize(end, b' ')
}

/// A number in decimals.
fn decimals(buffer: &mut Buffer, number: u64) -> &str
    ensures { result.now ≡ number_text number }
{
    buffer.format(number)
}

/// Appends a number in decimals.
pub fn push_number(text: &mut Vec<u8>, number: u64) -> Result<(), AllocError>
    ensures { OnOk result (text.new.items ≡ text.old.items ++ number_text number) }
{
    let mut buffer = Buffer::new();
    push_str(text, decimals(&mut buffer, number))
}

/// A large number in decimals.
fn long_decimals(buffer: &mut Buffer, number: u128) -> &str
    ensures { result.now ≡ number_text number }
{
    buffer.format(number)
}

/// Appends a large number in decimals.
pub fn push_long(text: &mut Vec<u8>, number: u128) -> Result<(), AllocError>
    ensures { OnOk result (text.new.items ≡ text.old.items ++ number_text number) }
{
    let mut buffer = Buffer::new();
    push_str(text, long_decimals(&mut buffer, number))
}

/// Appends a number at the right of so many columns.
pub fn push_right(text: &mut Vec<u8>, columns: usize, number: u64) -> Result<(), AllocError>
    ensures { OnOk result (text.new.items ≡ text.old.items ++ right columns (number_text number)) }
{
    let mut buffer = Buffer::new();
    let digits = decimals(&mut buffer, number);
    push_spaces(text, columns.saturating_sub(digits.len()))?;
    push_str(text, digits)
}

/// Appends a number at the left of so many columns.
pub fn push_left(text: &mut Vec<u8>, columns: usize, number: u64) -> Result<(), AllocError>
    ensures { OnOk result (text.new.items ≡ text.old.items ++ left columns (number_text number)) }
{
    let mut buffer = Buffer::new();
    let digits = decimals(&mut buffer, number);
    push_str(text, digits)?;
    push_spaces(text, columns.saturating_sub(digits.len()))
}

/// Appends that not all octets are shown, and how many there are.
pub fn push_left_out(text: &mut Vec<u8>, count: usize) -> Result<(), AllocError>
    ensures { OnOk result (text.new.items ≡ text.old.items ++ left_out_text count) }
{
    push_str(text, ".. (")?;
    push_number(text, count as u64)?;
    push_str(text, " octets)")
}

/// Cuts off what stands behind so many columns from an index on, where that is more, and says of how many octets it is.
pub fn truncated_behind(
    text: &mut Vec<u8>,
    start: usize,
    width: usize,
    count: usize,
) -> Result<(), AllocError>
    requires { start ≤ length text.old.items }
    ensures { OnOk result (text.new.items ≡
        take start text.old.items ++ truncated_text width count (drop start text.old.items)) }
{
    if text.len() - start <= width {
        return Ok(());
    }
    text.truncate(start + width);
    push_left_out(text, count)?;
    Ok(())
}

/// Appends octets in hexadecimal digits, two for each.
pub fn push_hexadecimal(text: &mut Vec<u8>, octets: &[u8]) -> Result<(), AllocError>
    ensures { OnOk result (text.new.items ≡ text.old.items ++ encode_lower octets.now) }
{
    for octet in octets {
        text.push(DIGITS[usize::from(*octet / 16)])?;
        text.push(DIGITS[usize::from(*octet % 16)])?;
    }
    Ok(())
}
