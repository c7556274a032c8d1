//! The contents octets of object identifiers and of relative ones: their pieces, their arcs, and the laws of these.

ghost use Rattle.std.specs.Prelude.{ℕ, ◌≡◌, ◌≢◌, ◌+◌, ◌*◌, ◌/◌, ◌%◌, ◌^◌, ◌<◌, ◌≤◌, ◌↔◌, Bool, true, false};
ghost use Rattle.std.specs.Prelude.{List, [], ◌∷◌, ◌++◌, length, take, drop, IsTrue};
ghost use Rattle.std.specs.List.{All, concat};
ghost use Rattle.x690.specs.Octets.{BeginsWith};
ghost use Rattle.x690.specs.Digits.{base_128_value};
ghost use Rattle.x690.specs.Identifiers.{AreTagDigits};
ghost use Rattle.x690.specs.Arcs.{pieces_of, subidentifiers, first_subidentifier, first_arc, second_arc, IsFirstPair};
ghost use Rattle.x690.specs.Arcs.{arcs_of, AreShortest, AreComplete, AreAbsoluteArcs, arcs_octets, arcs_text};

/// Contents octets are their pieces, one after the other. Digits that are complete are a piece at the front, whatever
/// follows, and octets that all have bit 8 are one piece (X.690 8.19.2).
pub fn contents_are_pieces()
    ensures joined { (content : List ℕ) → concat (pieces_of content) ≡ content }
    ensures first { (digits rest : List ℕ) → AreTagDigits digits →
        pieces_of (digits ++ rest) ≡ digits ∷ pieces_of rest }
    ensures truncated { (octets : List ℕ) → octets ≢ [] → All (λ octet. 128 ≤ octet) octets →
        pieces_of octets ≡ octets ∷ [] }
{}

/// Each first subidentifier is that of one pair of arcs, 40 * X + Y (X.690 8.19.4).
pub fn first_pairs_are_unique()
    ensures exists { (n : ℕ) →
        IsFirstPair (first_arc n) (second_arc n) × (40 * first_arc n + second_arc n ≡ n) }
    ensures no_other { (x y : ℕ) → IsFirstPair x y →
        (x ≡ first_arc (40 * x + y)) × (y ≡ second_arc (40 * x + y)) }
{}

/// Arcs come back from their shortest contents octets (X.690 8.19, 8.20). Only the arcs 0, 0 of an object identifier
/// are the one arc 0.
pub fn arcs_come_back()
    ensures shortest { (relative : Bool) (arcs : List ℕ) → AreShortest (arcs_octets relative arcs) }
    ensures relative { (arcs : List ℕ) → arcs_of true (arcs_octets true arcs) ≡ arcs }
    ensures absolute { (arcs : List ℕ) → AreAbsoluteArcs arcs → arcs ≢ 0 ∷ 0 ∷ [] →
        arcs_of false (arcs_octets false arcs) ≡ arcs }
    ensures zeros { arcs_of false (arcs_octets false (0 ∷ 0 ∷ [])) ≡ 0 ∷ [] }
{}

/// Shortest contents octets are determined by their arcs, and no contents octets that have these arcs are fewer
/// (X.690 8.19, 8.20).
pub fn shortest_contents_are_determined()
    ensures octets { (relative : Bool) (content : List ℕ) → AreShortest content →
        content ≡ arcs_octets relative (arcs_of relative content) }
    ensures no_other { (relative : Bool) (content other : List ℕ)
        → AreShortest content
        → AreShortest other
        → arcs_of relative content ≡ arcs_of relative other
        → content ≡ other }
    ensures fewest { (relative : Bool) (content : List ℕ) →
        length (arcs_octets relative (arcs_of relative content)) ≤ length content }
{}

/// Where contents octets that are complete begin other ones, their arcs begin the arcs of these (X.690 8.19.2).
pub fn beginnings_have_the_first_arcs()
    ensures { (relative : Bool) (content front rest : List ℕ)
        → AreComplete front
        → BeginsWith content front rest
        → (more : List ℕ) × BeginsWith (arcs_of relative content) (arcs_of relative front) more }
{}

/// Each arc is below 128 to the power of the number of contents octets, so below 2^63 where they are nine or fewer
/// (X.690 8.19.2).
pub fn few_octets_have_small_arcs()
    ensures bound { (relative : Bool) (content : List ℕ) →
        All (λ arc. arc < 128 ^ length content) (arcs_of relative content) }
    ensures nine { (relative : Bool) (content : List ℕ) → length content ≤ 9 →
        All (λ arc. arc < 2 ^ 63) (arcs_of relative content) }
{}

/// Arcs below 2^64 are determined by their text.
pub fn arcs_have_one_text()
    ensures { (arcs others : List ℕ)
        → All (λ arc. arc < 2 ^ 64) arcs
        → All (λ arc. arc < 2 ^ 64) others
        → arcs_text arcs ≡ arcs_text others
        → arcs ≡ others }
{}

/// The text of arcs below 2^64 is not longer than four times the contents octets and two. An arc has three digits at
/// most for each octet, and a point (X.690 8.19.2, 8.19.4).
pub fn arc_texts_are_short()
    ensures { (relative : Bool) (content : List ℕ)
        → All (λ arc. arc < 2 ^ 64) (arcs_of relative content)
        → length (arcs_text (arcs_of relative content)) ≤ 4 * length content + 2 }
{}

/// How many octets the first piece has, where there are octets (X.690 8.19.2). It looks at no octet behind that piece.
pub fn first_piece_len(octets: &[u8]) -> usize
    requires { 0 < length octets.now }
    ensures some { 0 < result }
    ensures within { result ≤ length octets.now }
    ensures piece { pieces_of octets.now ≡
        take result octets.now ∷ pieces_of (drop result octets.now) }
{
    for (i, octet) in octets.iter().enumerate() {
        if *octet < 128 {
            return i + 1;
        }
    }
    octets.len()
}

/// How many subidentifiers contents octets have; what is left behind the last octet without bit 8 is one too
/// (X.690 8.19.2).
pub fn count_subidentifiers(octets: &[u8]) -> usize
    ensures count { result ≡ length (pieces_of octets.now) }
    ensures within { result ≤ length octets.now }
{
    let mut count = 0;
    for octet in octets {
        count += usize::from(*octet < 128);
    }
    match octets.last() {
        Some(last) if *last >= 128 => count + 1,
        _ => count,
    }
}

/// The first subidentifier and the number of its digits but the last, each modulo 2^64, and how many octets it has
/// (X.690 8.19.2).
#[inline(always)]
fn long_subidentifier(octets: &[u8]) -> (u64, u64, usize)
    requires { 0 < length octets.now }
    ensures low { result.0 ≡ first_subidentifier octets.now % 2 ^ 64 }
    ensures front { result.1 ≡ first_subidentifier octets.now / 128 % 2 ^ 64 }
    ensures some { 0 < result.2 }
    ensures within { result.2 ≤ length octets.now }
    ensures piece { pieces_of octets.now ≡
        take result.2 octets.now ∷ pieces_of (drop result.2 octets.now) }
{
    let mut low: u64 = 0;
    let mut front: u64 = 0;
    for (i, digit) in octets.iter().enumerate() {
        front = low;
        low = low.wrapping_mul(128).wrapping_add(u64::from(*digit % 128));
        if *digit < 128 {
            return (low, front, i + 1);
        }
    }
    (low, front, octets.len())
}

/// The first subidentifier, where it is below 2^64, and how many octets it has, leading octets 80 among them. One
/// without its last octet counts with the digits that are there (X.690 8.19.2). It looks at no octet behind them.
#[inline(always)]
pub fn subidentifier(octets: &[u8]) -> (u64, usize)
    requires some { 0 < length octets.now }
    requires small { first_subidentifier octets.now < 2 ^ 64 }
    ensures value { result.0 ≡ first_subidentifier octets.now }
    ensures some { 0 < result.1 }
    ensures within { result.1 ≤ length octets.now }
    ensures piece { pieces_of octets.now ≡
        take result.1 octets.now ∷ pieces_of (drop result.1 octets.now) }
    ensures numbers { subidentifiers octets.now ≡
        result.0 ∷ subidentifiers (drop result.1 octets.now) }
{
    let first = octets[0];
    if first < 128 {
        (u64::from(first), 1)
    } else {
        let (number, _, len) = long_subidentifier(octets);
        (number, len)
    }
}

/// X of a first subidentifier 40 * X + Y (X.690 8.19.4).
#[inline(always)]
fn first_arc_of(number: u8) -> u8
    ensures value { result ≡ first_arc number }
    ensures few { result ≤ 2 }
{
    if number < 40 {
        0
    } else if number < 80 {
        1
    } else {
        2
    }
}

/// The first two arcs where their subidentifier may have more than one octet, and how many it has (X.690 8.19.4).
#[inline(never)]
fn split_long_subidentifier(octets: &[u8]) -> (u64, u64, usize)
    requires some { 0 < length octets.now }
    requires small { first_subidentifier octets.now < 2 ^ 64 + 80 }
    ensures first { result.0 ≡ first_arc (first_subidentifier octets.now) }
    ensures second { result.1 ≡ second_arc (first_subidentifier octets.now) }
    ensures some { 0 < result.2 }
    ensures within { result.2 ≤ length octets.now }
    ensures piece { pieces_of octets.now ≡
        take result.2 octets.now ∷ pieces_of (drop result.2 octets.now) }
{
    let (low, front, len) = long_subidentifier(octets);
    let first = if front == 0 {
        first_arc_of(low as u8)
    } else {
        2
    };
    let second = low.wrapping_sub(u64::from(40 * first));
    (u64::from(first), second, len)
}

/// The first two arcs of an object identifier, where the second is below 2^64, and the number of octets of their
/// subidentifier (X.690 8.19.4). Leading octets 80 are among these. It looks at no octet behind them.
#[inline(always)]
pub fn split_subidentifier(octets: &[u8]) -> (u64, u64, usize)
    requires some { 0 < length octets.now }
    requires small { first_subidentifier octets.now < 2 ^ 64 + 80 }
    ensures first { result.0 ≡ first_arc (first_subidentifier octets.now) }
    ensures second { result.1 ≡ second_arc (first_subidentifier octets.now) }
    ensures some { 0 < result.2 }
    ensures within { result.2 ≤ length octets.now }
    ensures piece { pieces_of octets.now ≡
        take result.2 octets.now ∷ pieces_of (drop result.2 octets.now) }
    ensures numbers { subidentifiers octets.now ≡
        first_subidentifier octets.now ∷ subidentifiers (drop result.2 octets.now) }
{
    let number = octets[0];
    if number < 128 {
        let first = first_arc_of(number);
        (u64::from(first), u64::from(number - 40 * first), 1)
    } else {
        split_long_subidentifier(octets)
    }
}

/// Whether the number whose digits in base 128 the octets are is below the bound.
fn is_below(octets: &[u8], bound: u128) -> bool
    requires { bound ≤ 2 ^ 65 }
    ensures { IsTrue result ↔ base_128_value octets.now < bound }
{
    let mut number: u128 = 0;
    for octet in octets {
        if number >= bound {
            return false;
        }
        number = number * 128 + u128::from(*octet % 128);
    }
    number < bound
}

/// Whether no nine octets in a row have bit 8, so that no piece has more than nine octets (X.690 8.19.2).
fn has_short_pieces(octets: &[u8]) -> bool
    ensures { IsTrue result → All (λ piece. length piece < 10) (pieces_of octets.now) }
{
    let mut run: usize = 0;
    let mut short = true;
    for octet in octets {
        run = if *octet < 128 { 0 } else { run + 1 };
        short &= run < 9;
    }
    short
}

/// Whether each arc of the contents octets is below 2^64, judged piece by piece (X.690 8.19, 8.20).
#[inline(never)]
fn arcs_fit_by_piece(relative: bool, octets: &[u8]) -> bool
    ensures { IsTrue result ↔ All (λ arc. arc < 2 ^ 64) (arcs_of relative octets.now) }
{
    if octets.len() < 10 {
        return true;
    }
    let mut bound: u128 = if relative {
        0x1_0000_0000_0000_0000
    } else {
        0x1_0000_0000_0000_0050
    };
    let mut rest = octets;
    while !rest.is_empty() {
        let len = first_piece_len(rest);
        if len >= 10 && !is_below(&rest[..len], bound) {
            return false;
        }
        bound = 0x1_0000_0000_0000_0000;
        rest = &rest[len..];
    }
    true
}

/// Whether each arc of the contents octets is below 2^64, of a relative identifier or of another one. Leading octets 80
/// do not count, and nine octets or fewer are not looked at (X.690 8.19, 8.20).
#[inline]
pub fn arcs_fit(relative: bool, octets: &[u8]) -> bool
    ensures { IsTrue result ↔ All (λ arc. arc < 2 ^ 64) (arcs_of relative octets.now) }
{
    octets.len() < 10 || has_short_pieces(octets) || arcs_fit_by_piece(relative, octets)
}
