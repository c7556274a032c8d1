//! Numbers and the octets that are their digits, with no memory but what the caller lends.

ghost use Rattle.std.specs.Prelude.{ℕ, ◌≡◌, ◌+◌, ◌*◌, ◌<◌, ◌≤◌, ◌^◌, Bool, length, map, take, drop, IfSome, IfNone};
ghost use Rattle.std.specs.Int.Digits.{digits_of};
ghost use Rattle.x690.specs.Digits.{base_256_value, base_128_value};
ghost use Rattle.x690.specs.Identifiers.{AreTagDigits, bit};
ghost use Rattle.x690.specs.Strict.{tag_digits, identifier_octets, length_octets, header_octets};

/// The number whose digits in base 256 the octets are, with any leading zeros. There is none exactly where it is
/// 2^64 or more (X.690 8.1.3.5).
pub fn base_256_number(octets: &[u8]) -> Option<usize>
    ensures some { IfSome result (λ number. number ≡ base_256_value octets.now) }
    ensures none { IfNone result (2 ^ 64 ≤ base_256_value octets.now) }
{
    let mut number: usize = 0;
    for octet in octets {
        if number >= 0x100_0000_0000_0000 {
            return None;
        }
        number = number * 256 + usize::from(*octet);
    }
    Some(number)
}

/// The tag number in base 128 at the front, and how many octets it has: at most five. There is none exactly where
/// no front of at most five octets is the digits of a number below 2^32 (X.690 8.1.2.4).
pub fn tag_number(octets: &[u8]) -> Option<(u32, usize)>
    ensures within { IfSome result (λ found. found.1 ≤ length octets.now) }
    ensures few { IfSome result (λ found. found.1 ≤ 5) }
    ensures digits { IfSome result (λ found. AreTagDigits (take found.1 octets.now)) }
    ensures value { IfSome result (λ found. base_128_value (take found.1 octets.now) ≡ found.0) }
    ensures none { IfNone result ((k : ℕ) → k ≤ 5 → AreTagDigits (take k octets.now) →
        base_128_value (take k octets.now) < 2 ^ 32 → ⊥) }
{
    let mut number: u64 = 0;
    for (i, octet) in octets.iter().enumerate() {
        if i == 5 {
            return None;
        }
        number = number * 128 + u64::from(*octet % 128);
        if *octet < 128 {
            return match u32::try_from(number) {
                Ok(number) => Some((number, i + 1)),
                Err(_) => None,
            };
        }
    }
    None
}

/// How many digits the number has in the base: none for 0.
fn count_digits<const BASE: usize>(number: usize) -> usize
    requires { 2 ≤ BASE }
    ensures { result ≡ length (digits_of BASE number) }
{
    let mut count = 0;
    let mut left = number;
    while left > 0 {
        left /= BASE;
        count += 1;
    }
    count
}

/// How many digits the number has in base 256, none for 0: at most eight.
pub fn count_base_256(number: usize) -> usize
    ensures count { result ≡ length (digits_of 256 number) }
    ensures few { result ≤ 8 }
{
    count_digits::<256>(number)
}

/// How many digits the number has in base 128, none for 0: at most five.
pub fn count_base_128(number: u32) -> usize
    ensures count { result ≡ length (digits_of 128 number) }
    ensures few { result ≤ 5 }
{
    count_digits::<128>(number as usize)
}

/// How many digits the number has in base 10, none for 0: at most ten.
pub fn count_base_10(number: u32) -> usize
    ensures count { result ≡ length (digits_of 10 number) }
    ensures few { result ≤ 10 }
{
    count_digits::<10>(number as usize)
}

/// How many strict length octets say this number (X.690 10.1).
pub fn length_octets_count(n: usize) -> usize
    ensures count { result ≡ length (length_octets n) }
    ensures few { result ≤ 9 }
{
    if n < 128 { 1 } else { 1 + count_base_256(n) }
}

/// How many strict identifier octets say this tag number, whatever the class and the constructed bit
/// (X.690 8.1.2.2, 8.1.2.4).
pub fn identifier_octets_count(number: u32) -> usize
    ensures count { (class : ℕ) (constructed : Bool) →
        result ≡ length
        (identifier_octets (record { class = class; constructed = constructed; number = number })) }
    ensures few { result ≤ 6 }
{
    if number < 31 {
        1
    } else {
        2 + count_base_128(number / 128)
    }
}

/// Writes the digits of the number in the base, with the offset added to each, where there are as many places.
fn write_digits<const BASE: usize>(number: usize, offset: u8, out: &mut [u8])
    requires base { 2 ≤ BASE }
    requires octet { offset + BASE ≤ 256 }
    requires places { length out.old ≡ length (digits_of BASE number) }
    ensures { out.new ≡ map (λ digit. offset + digit) (digits_of BASE number) }
{
    let mut left = number;
    let mut place = out.len();
    while place > 0 {
        place -= 1;
        out[place] = offset + (left % BASE) as u8;
        left /= BASE;
    }
}

/// The first identifier octet without its low five bits.
#[inline(always)]
fn high_bits(class: u8, constructed: bool) -> u8
    requires { class < 4 }
    ensures value { result ≡ 64 * class + 32 * bit constructed }
    ensures octet { result ≤ 224 }
{
    64 * class + if constructed { 32 } else { 0 }
}

/// Writes strict identifier octets at the front, and says how many they are.
#[inline(always)]
fn write_identifier(class: u8, constructed: bool, number: u32, out: &mut [u8]) -> usize
    requires class { class < 4 }
    requires room { 6 ≤ length out.old }
    ensures written { take result out.new ≡
        identifier_octets (record { class = class; constructed = constructed; number = number }) }
    ensures kept { drop result out.new ≡ drop result out.old }
    ensures few { result ≤ 6 }
{
    let high = high_bits(class, constructed);
    if number < 31 {
        out[0] = high + number as u8;
        return 1;
    }
    let count = count_base_128(number / 128);
    out[0] = high + 31;
    write_digits::<128>((number / 128) as usize, 128, &mut out[1..1 + count]);
    out[1 + count] = (number % 128) as u8;
    2 + count
}

/// Writes strict length octets at the front, and says how many they are.
#[inline(always)]
fn write_length(n: usize, out: &mut [u8]) -> usize
    requires { 9 ≤ length out.old }
    ensures written { take result out.new ≡ length_octets n }
    ensures kept { drop result out.new ≡ drop result out.old }
    ensures few { result ≤ 9 }
{
    if n < 128 {
        out[0] = n as u8;
        return 1;
    }
    let count = count_base_256(n);
    out[0] = 128 + count as u8;
    write_digits::<256>(n, 0, &mut out[1..1 + count]);
    1 + count
}

/// Writes the strict identifier octets at the front, and says how many they are: one to six (X.690 8.1.2.2, 8.1.2.4).
/// What stands behind them stays.
pub fn identifier_into(class: u8, constructed: bool, number: u32, out: &mut [u8; 6]) -> usize
    requires { class < 4 }
    ensures written { take result out.new ≡
        identifier_octets (record { class = class; constructed = constructed; number = number }) }
    ensures kept { drop result out.new ≡ drop result out.old }
    ensures few { result ≤ 6 }
{
    write_identifier(class, constructed, number, out)
}

/// Writes the strict length octets at the front, and says how many they are: one to nine (X.690 8.1.3.4, 8.1.3.5,
/// 10.1). What stands behind them stays.
pub fn length_into(n: usize, out: &mut [u8; 9]) -> usize
    ensures written { take result out.new ≡ length_octets n }
    ensures kept { drop result out.new ≡ drop result out.old }
    ensures few { result ≤ 9 }
{
    write_length(n, out)
}

/// Writes at the front the strict header of an element with n contents octets (X.690 8.1.2, 8.1.3, 10.1). It answers
/// its number of octets, two to fifteen. What stands behind them stays.
#[inline(always)]
pub fn header_into(class: u8, constructed: bool, number: u32, n: usize, out: &mut [u8; 15]) -> usize
    requires { class < 4 }
    ensures written { take result out.new ≡ header_octets class constructed number n }
    ensures kept { drop result out.new ≡ drop result out.old }
    ensures few { result ≤ 15 }
{
    let front = write_identifier(class, constructed, number, out);
    front + write_length(n, &mut out[front..])
}

/// The strict header of an element with so many contents octets, where it has two octets. The tag number is in low form
/// and the length in short form (X.690 8.1.2.2, 8.1.3.4).
#[inline(always)]
pub fn short_header(class: u8, constructed: bool, number: u32, len: usize) -> Option<[u8; 2]>
    requires { class < 4 }
    ensures some { IfSome result
        (λ octets. octets ≡ header_octets class constructed number len) }
    ensures none { IfNone result (number < 31 → len < 128 → ⊥) }
{
    if number < 31 && len < 128 {
        Some([high_bits(class, constructed) + number as u8, len as u8])
    } else {
        None
    }
}

/// Writes the digits of the number in base 128 at the front, with bit 8 on all but the last. It answers how many they
/// are, one to ten (X.690 8.19.2). What stands behind them stays.
pub fn subidentifier_into(number: u128, out: &mut [u8; 10]) -> usize
    requires { number < 2 ^ 70 }
    ensures written { take result out.new ≡ tag_digits number }
    ensures kept { drop result out.new ≡ drop result out.old }
    ensures few { result ≤ 10 }
{
    let high = (number / 128) as usize;
    let count = count_digits::<128>(high);
    write_digits::<128>(high, 128, &mut out[..count]);
    out[count] = (number % 128) as u8;
    count + 1
}
