//! How hexadecimal digits are read.
ghost use Rattle.std.specs.Prelude.{◌≡◌, ◌<◌, ◌*◌, ℕ, List, length, IsTrue, false};
ghost use Rattle.asn1vec_answers.specs.Request.{IsDigit, AreHexadecimalDigits};

/// The number of each octet as a digit, in either case, or 255.
const NUMBERS: [u8; 256] = [
    255, 255, 255, 255, 255, 255, 255, 255, 255, 255, 255, 255, 255, 255, 255, 255, 255, 255, 255,
    255, 255, 255, 255, 255, 255, 255, 255, 255, 255, 255, 255, 255, 255, 255, 255, 255, 255, 255,
    255, 255, 255, 255, 255, 255, 255, 255, 255, 255, 0, 1, 2, 3, 4, 5, 6, 7, 8, 9, 255, 255, 255,
    255, 255, 255, 255, 10, 11, 12, 13, 14, 15, 255, 255, 255, 255, 255, 255, 255, 255, 255, 255,
    255, 255, 255, 255, 255, 255, 255, 255, 255, 255, 255, 255, 255, 255, 255, 255, 10, 11, 12, 13,
    14, 15, 255, 255, 255, 255, 255, 255, 255, 255, 255, 255, 255, 255, 255, 255, 255, 255, 255,
    255, 255, 255, 255, 255, 255, 255, 255, 255, 255, 255, 255, 255, 255, 255, 255, 255, 255, 255,
    255, 255, 255, 255, 255, 255, 255, 255, 255, 255, 255, 255, 255, 255, 255, 255, 255, 255, 255,
    255, 255, 255, 255, 255, 255, 255, 255, 255, 255, 255, 255, 255, 255, 255, 255, 255, 255, 255,
    255, 255, 255, 255, 255, 255, 255, 255, 255, 255, 255, 255, 255, 255, 255, 255, 255, 255, 255,
    255, 255, 255, 255, 255, 255, 255, 255, 255, 255, 255, 255, 255, 255, 255, 255, 255, 255, 255,
    255, 255, 255, 255, 255, 255, 255, 255, 255, 255, 255, 255, 255, 255, 255, 255, 255, 255, 255,
    255, 255, 255, 255, 255, 255, 255, 255, 255, 255, 255, 255, 255, 255, 255, 255, 255, 255, 255,
    255, 255, 255,
];

/// The number of a digit, in either case, or 255.
#[inline(always)]
fn number_of(digit: u8) -> u8
    ensures digit { result < 16 → IsDigit result digit }
    ensures none { (d : ℕ) → IsDigit d digit → result ≡ d }
{
    NUMBERS[digit as usize]
}

/// Fills octets from two digits for each, and answers whether these are digits.
pub(crate) fn fill(digits: &[u8], octets: &mut [u8]) -> bool
    requires { length digits.now ≡ 2 * length octets.old }
    ensures found { IsTrue result → AreHexadecimalDigits octets.new digits.now }
    ensures none { result ≡ false → (octets : List ℕ) → ¬ AreHexadecimalDigits octets digits.now }
{
    'pairs: for i in 0..octets.len() {
        let high = number_of(digits[2 * i]);
        let low = number_of(digits[2 * i + 1]);
        if high.max(low) > 15 {
            return false;
        }
        octets[i] = high * 16 + low;
    }
    true
}
