//! Contents octets of integers of either sign (X.690 8.3).

ghost use Rattle.std.specs.Prelude.{ℕ, ℤ, List, ◌++◌, ◌+◌, ◌-◌, ◌^◌, ◌-ℤ◌, true, false, ◌≡◌, ◌<◌, ◌≤◌, ◌⊎◌, ◌↔◌};
ghost use Rattle.std.specs.Prelude.{length, get_or, map, take, drop, pos, negsuc, IfSome, IfNone, IsTrue};
ghost use Rattle.std.specs.Int.{w64, to_be_bytes};
ghost use Rattle.x690.specs.Octets.{IsOctets};
ghost use Rattle.x690.specs.Digits.{twos_complement_value};
ghost use Rattle.x690.specs.Strict.{header_octets};
ghost use Rattle.x690.specs.Integers.{HasRedundantZeros, HasRedundantOnes, unsigned_octets};
ghost use Rattle.x690.specs.Signed.{complement, signed_octets, IsSigned};

use crate::integers::{
    has_redundant_ones, has_redundant_zeros, unsigned_into, unsigned_octets_count, word_number,
};

/// The octets behind those in front that could be left out, which say the same integer (X.690 8.3.2).
fn without_redundant_octets(octets: &[u8]) -> &[u8]
    ensures value { twos_complement_value result.now ≡ twos_complement_value octets.now }
    ensures zeros { ¬ HasRedundantZeros result.now }
    ensures ones { ¬ HasRedundantOnes result.now }
{
    let mut rest = octets;
    while has_redundant_zeros(rest) || has_redundant_ones(rest) {
        rest = &rest[1..];
    }
    rest
}

/// The octets themselves where they are no more than `most`, else those behind the ones that could be left out.
fn fewest_octets(octets: &[u8], most: usize) -> &[u8]
    ensures value { twos_complement_value result.now ≡ twos_complement_value octets.now }
    ensures zeros { most < length result.now → ¬ HasRedundantZeros result.now }
    ensures ones { most < length result.now → ¬ HasRedundantOnes result.now }
{
    if octets.len() <= most {
        return octets;
    }
    without_redundant_octets(octets)
}

/// Whether the first bit is set.
fn is_negative(octets: &[u8]) -> bool
    ensures { IsTrue result ↔ (128 ≤ get_or octets.now 0 0) }
{
    !octets.is_empty() && octets[0] >= 128
}

/// The integer of this sign whose two's complement the number is, where `most` has all of its bits set.
///
/// Both tests choose between two numbers, so that no branch is guessed: signs come at random.
#[inline(always)]
fn with_sign(number: u64, most: u64, negative: bool) -> i64
    requires within { number ≤ most }
    requires natural { negative ≡ false → number < 2 ^ 63 }
    requires turned { negative ≡ true → most - number < 2 ^ 63 }
    ensures natural { negative ≡ false → result ≡ pos number }
    ensures turned { negative ≡ true → result ≡ pos number -ℤ pos (most + 1) }
{
    let turned = if negative { most - number } else { number } as i64;
    if negative { -1 - turned } else { turned }
}

/// The integer of this sign that the octets are, which one machine word holds.
fn word_signed(octets: &[u8], negative: bool) -> i128
    requires few { length octets.now ≤ 8 }
    requires sign { IsTrue negative ↔ (128 ≤ get_or octets.now 0 0) }
    ensures { result ≡ twos_complement_value octets.now }
{
    if octets.is_empty() {
        return 0;
    }
    let number = word_number(octets);
    let most = u64::MAX >> (8 * (8 - octets.len()));
    i128::from(with_sign(number, most, negative))
}

/// The integer that the octets are in two's complement: no octet is 0, and octets in front that could be left out
/// say nothing. There is none exactly where the integer does not fit in `most` octets (X.690 8.3.3).
pub fn signed_number(octets: &[u8], most: usize) -> Option<i128>
    requires some { 1 ≤ most }
    requires few { most ≤ 16 }
    ensures value { IfSome result (λ number. number ≡ twos_complement_value octets.now) }
    ensures fits { IfSome result (λ number. IsSigned most number) }
    ensures none { IfNone result (¬ IsSigned most (twos_complement_value octets.now)) }
{
    let rest = fewest_octets(octets, most);
    if rest.len() > most {
        return None;
    }
    let negative = is_negative(rest);
    if rest.len() <= 8 {
        return Some(word_signed(rest, negative));
    }
    let mut number: i128 = if negative { -1 } else { 0 };
    for octet in rest {
        number = number * 256 + i128::from(*octet);
    }
    Some(number)
}

/// The natural number whose strict contents octets those of the integer are, or are with each bit turned over.
fn without_sign(n: i128) -> u128
    ensures { (n ≡ pos result) ⊎ (n ≡ negsuc result) }
{
    if n < 0 { (-1 - n) as u128 } else { n as u128 }
}

/// How many octets the strict contents octets of an integer are (X.690 8.3.2, 8.3.3).
pub fn signed_octets_count(n: i128) -> usize
    ensures count { result ≡ length (signed_octets n) }
    ensures few { result ≤ 16 }
{
    unsigned_octets_count(without_sign(n))
}

/// Turns each bit over.
fn turn_over(octets: &mut [u8])
    ensures { octets.new ≡ map complement octets.old }
{
    for octet in octets.iter_mut() {
        *octet = 255 - *octet;
    }
}

/// Writes the strict contents octets of an integer to the end of the array, and says where they begin
/// (X.690 8.3.2, 8.3.3). What stands before them stays.
pub fn signed_into(n: i128, out: &mut [u8; 17]) -> usize
    ensures octets { drop result out.new ≡ signed_octets n }
    ensures kept { take result out.new ≡ take result out.old }
    ensures within { result ≤ 16 }
{
    let at = unsigned_into(without_sign(n), out);
    if n < 0 {
        turn_over(&mut out[at..]);
    }
    at
}

/// How many octets the strict contents octets of a natural number are, which one machine word holds.
fn word_octets_count(n: u64) -> usize
    ensures { result ≡ length (unsigned_octets n) }
{
    let bits = 64 - n.leading_zeros() as usize;
    bits / 8 + 1
}

/// The natural number whose strict contents octets those of the integer are, or are with each bit turned over.
fn word_without_sign(n: i64) -> u64
    ensures { (n ≡ pos result) ⊎ (n ≡ negsuc result) }
{
    if n < 0 { (-1 - n) as u64 } else { n as u64 }
}

/// Strict contents octets as the highest of a machine word, and how many they are (X.690 8.3.2, 8.3.3).
#[inline(always)]
fn highest_octets(n: i64) -> (u64, usize)
    ensures octets { take result.1 (to_be_bytes w64 result.0) ≡ signed_octets n }
    ensures count { result.1 ≡ length (signed_octets n) }
    ensures few { result.1 ≤ 8 }
{
    let turned = word_without_sign(n);
    let count = word_octets_count(turned);
    let word = if n < 0 { u64::MAX - turned } else { turned };
    (word << (8 * (8 - count)), count)
}

/// The strict element of an integer at the front of the array, and how many octets it has (X.690 8.1.2, 8.1.3, 8.3.2,
/// 8.3.3, 10.1). It is primitive and of the universal class with this tag number.
#[inline(always)]
pub fn integer_element(number: u32, n: i64) -> ([u8; 16], usize)
    requires { number < 31 }
    ensures element { take result.1 result.0 ≡
        header_octets 0 false number (length (signed_octets n)) ++ signed_octets n }
    ensures few { result.1 ≤ 10 }
{
    let (content, count) = highest_octets(n);
    let header = 256 * u128::from(number) + count as u128;
    let octets = (header << 112) + (u128::from(content) << 48);
    (octets.to_be_bytes(), 2 + count)
}

/// So many octets hold an integer exactly where its strict contents octets are no more. Any octets that are no more say
/// an integer that so many hold (X.690 8.3.2, 8.3.3).
pub fn octets_hold_their_integers()
    ensures strict { (n : ℤ) (size : ℕ) → 1 ≤ size →
        IsSigned size n ↔ (length (signed_octets n) ≤ size) }
    ensures each { (octets : List ℕ) (size : ℕ) → IsOctets octets → length octets ≤ size →
        IsSigned size (twos_complement_value octets) }
{}
