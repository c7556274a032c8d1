//! Contents octets of integers (X.690 8.3).

ghost use Rattle.std.specs.Prelude.{ℕ, ◌≡◌, ◌<◌, ◌≤◌, ◌^◌, ◌+◌, ◌-◌, ◌*◌, ◌/◌, ◌++◌, List, length, get_or, take, drop};
ghost use Rattle.std.specs.Prelude.{pos, ℤ, IfSome, IfNone, IsTrue, ◌↔◌};
ghost use Rattle.x690.specs.Digits.{base_256_value};
ghost use Rattle.x690.specs.Integers.{HasRedundantZeros, HasRedundantOnes, IsIntegerContent, HasNoLeadingZero, unsigned_octets};
ghost use Rattle.x690.specs.Signed.{signed_octets};

/// The octets behind the leading zeros, which say the same number.
fn without_leading_zeros(octets: &[u8]) -> &[u8]
    ensures value { base_256_value result.now ≡ base_256_value octets.now }
    ensures first { HasNoLeadingZero result.now }
{
    let mut rest = octets;
    while let Some((first, others)) = rest.split_first() {
        if *first != 0 {
            return rest;
        }
        rest = others;
    }
    rest
}

/// The octets themselves where they are no more than `most`, else those behind the leading zeros.
fn fewest_digits(octets: &[u8], most: usize) -> &[u8]
    ensures value { base_256_value result.now ≡ base_256_value octets.now }
    ensures first { most < length result.now → HasNoLeadingZero result.now }
{
    if octets.len() <= most {
        return octets;
    }
    without_leading_zeros(octets)
}

/// The number whose digits in base 256 the first four octets are.
#[inline(always)]
fn first_four(octets: &[u8]) -> u64
    requires { 4 ≤ length octets.now }
    ensures { result ≡ base_256_value (take 4 octets.now) }
{
    u64::from(octets[0]) * 0x100_0000
        + u64::from(octets[1]) * 0x1_0000
        + u64::from(octets[2]) * 0x100
        + u64::from(octets[3])
}

/// The number whose digits in base 256 are these four to eight octets. It is made of what those before the last four
/// say and of what the last four say, so that no loop ends at random.
#[inline(always)]
fn fours_number(digits: &[u8]) -> u64
    requires some { 4 ≤ length digits.now }
    requires few { length digits.now ≤ 8 }
    ensures { result ≡ base_256_value digits.now }
{
    let before = digits.len() - 4;
    let front = first_four(digits) >> (8 * (4 - before));
    front * 0x1_0000_0000 + first_four(&digits[before..])
}

/// The number whose digits in base 256 the octets are, which one machine word holds.
pub(crate) fn word_number(digits: &[u8]) -> u64
    requires { length digits.now ≤ 8 }
    ensures { result ≡ base_256_value digits.now }
{
    if digits.len() >= 4 {
        return fours_number(digits);
    }
    let mut number: u64 = 0;
    for octet in digits {
        number = number * 256 + u64::from(*octet);
    }
    number
}

/// The number whose digits in base 256 the octets are, with any leading zeros. There is none exactly where it
/// does not fit in `most` octets (X.690 8.3.3).
pub fn unsigned_number(octets: &[u8], most: usize) -> Option<u128>
    requires { most ≤ 16 }
    ensures some { IfSome result (λ number. number ≡ base_256_value octets.now) }
    ensures fits { IfSome result (λ number. number < 256 ^ most) }
    ensures none { IfNone result (256 ^ most ≤ base_256_value octets.now) }
{
    let digits = fewest_digits(octets, most);
    if digits.len() > most {
        return None;
    }
    if digits.len() <= 8 {
        return Some(u128::from(word_number(digits)));
    }
    let mut number: u128 = 0;
    for octet in digits {
        number = number * 256 + u128::from(*octet);
    }
    Some(number)
}

/// How many octets the strict contents octets of a natural number are (X.690 8.3.2, 8.3.3).
pub fn unsigned_octets_count(n: u128) -> usize
    ensures count { result ≡ length (unsigned_octets n) }
    ensures few { result ≤ 17 }
{
    let bits = 128 - n.leading_zeros() as usize;
    bits / 8 + 1
}

/// Writes the octets to the end of the array. What stands before them stays.
#[inline(always)]
fn put_at_end(octets: &[u8], out: &mut [u8; 17])
    requires { length octets.now ≤ 17 }
    ensures octets { drop (17 - length octets.now) out.new ≡ octets.now }
    ensures kept { take (17 - length octets.now) out.new ≡
        take (17 - length octets.now) out.old }
{
    let first = 17 - octets.len();
    out[first..].copy_from_slice(octets);
}

/// Writes the strict contents octets of a natural number to the end of the array, and says where they begin
/// (X.690 8.3.2, 8.3.3). What stands before them stays.
pub fn unsigned_into(n: u128, out: &mut [u8; 17]) -> usize
    ensures octets { drop result out.new ≡ unsigned_octets n }
    ensures kept { take result out.new ≡ take result out.old }
    ensures within { result ≤ 16 }
{
    let count = unsigned_octets_count(n);
    let digits = n.to_be_bytes();
    if count == 17 {
        put_at_end(&digits, out);
        out[0] = 0;
        return 0;
    }
    put_at_end(&digits[16 - count..], out);
    17 - count
}

/// The strict contents octets of the natural number whose digits in base 256 the octets are, in two parts (X.690 8.3.2,
/// 8.3.3). The first is 00 where there is no digit or the first one would be read as a sign, else nothing. The second
/// is the digits behind the leading zeros.
pub fn natural_parts(octets: &[u8]) -> (&'static [u8], &[u8])
    ensures { IsIntegerContent (pos (base_256_value octets.now))
        (result.0.now ++ result.1.now) }
{
    let digits = without_leading_zeros(octets);
    match digits.first() {
        Some(0..128) => (&[], digits),
        _ => (&[0], digits),
    }
}

/// The first nine bits as a number, so that one comparison looks at all of them.
fn first_nine_bits(octets: &[u8]) -> u16
    requires { 2 ≤ length octets.now }
    ensures { result ≡ 2 * get_or octets.now 0 0 + get_or octets.now 1 0 / 128 }
{
    2 * u16::from(octets[0]) + u16::from(octets[1] / 128)
}

/// Whether the first nine bits are all zero, which X.690 8.3.2 forbids.
pub fn has_redundant_zeros(octets: &[u8]) -> bool
    ensures { IsTrue result ↔ HasRedundantZeros octets.now }
{
    octets.len() >= 2 && first_nine_bits(octets) == 0
}

/// Whether the first nine bits are all one, which X.690 8.3.2 forbids.
pub fn has_redundant_ones(octets: &[u8]) -> bool
    ensures { IsTrue result ↔ HasRedundantOnes octets.now }
{
    octets.len() >= 2 && first_nine_bits(octets) == 511
}

/// Each integer has strict contents octets, no integer has two, and strict contents octets are those of
/// one integer alone (X.690 8.3.2, 8.3.3).
pub fn integers_have_one_content()
    ensures exists { (n : ℤ) → IsIntegerContent n (signed_octets n) }
    ensures of_natural { (n : ℕ) → IsIntegerContent (pos n) (unsigned_octets n) }
    ensures no_other { (n : ℤ) (c d : List ℕ) → IsIntegerContent n c → IsIntegerContent n d →
        c ≡ d }
    ensures one_value { (m n : ℤ) (c : List ℕ) → IsIntegerContent m c → IsIntegerContent n c →
        m ≡ n }
{}
