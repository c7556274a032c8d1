//! The strict identifier octets and length octets: each number has one way to be written.

ghost use Rattle.std.specs.Prelude.{ℕ, true, ◌≡◌, ◌<◌, ◌≤◌, ◌^◌, ◌++◌, List, length};
ghost use Rattle.x690.specs.Identifiers.{Identifier, IsIdentifier, IsStrictIdentifier};
ghost use Rattle.x690.specs.Lengths.{IsLength, IsStrictLength};
ghost use Rattle.x690.specs.Octets.{IsOctets};
ghost use Rattle.x690.specs.Rules.{Rule, der_rule, ber_rule};
ghost use Rattle.x690.specs.Elements.{Parts, IsDefiniteElement, IsDerElement, IsStrictElement, AllowsStrict};
ghost use Rattle.x690.specs.Strict.{element_octets, definite_parts, identifier_octets, length_octets};

/// Each class, constructed bit and tag number below 2^32 has exactly one string of strict identifier octets. No
/// identifier octets that a reader takes for it are fewer (X.690 8.1.2.2, 8.1.2.4).
pub fn one_strict_identifier()
    ensures exists { (id : Identifier)
        → id.class < 4
        → id.number < 2 ^ 32
        → IsStrictIdentifier (identifier_octets id) id }
    ensures no_other { (id : Identifier) (octets : List ℕ)
        → IsStrictIdentifier octets id
        → octets ≡ identifier_octets id }
    ensures fewest { (id : Identifier) (octets : List ℕ)
        → IsIdentifier octets id
        → length (identifier_octets id) ≤ length octets }
{}

/// Each length below 2^64 has exactly one string of strict length octets. No length octets that a reader takes for it
/// are fewer (X.690 8.1.3, 10.1).
pub fn one_strict_length()
    ensures exists { (n : ℕ) → n < 2 ^ 64 → IsStrictLength (length_octets n) n }
    ensures no_other { (n : ℕ) (octets : List ℕ)
        → IsStrictLength octets n
        → octets ≡ length_octets n }
    ensures fewest { (n : ℕ) (octets : List ℕ)
        → IsLength octets n
        → length (length_octets n) ≤ length octets }
{}

/// What a writer writes a reader takes: strict identifier octets and strict length octets are also lenient ones
/// that say the same (X.690 8.1.2, 8.1.3).
pub fn strict_is_lenient()
    ensures identifier { (octets : List ℕ) (id : Identifier)
        → IsStrictIdentifier octets id
        → IsIdentifier octets id }
    ensures length { (octets : List ℕ) (n : ℕ) → IsStrictLength octets n → IsLength octets n }
{}

/// Of the octets that say one thing, DER allows the strict ones alone (X.690 8.1.2.2, 8.1.2.4, 10.1).
pub fn der_allows_strict_alone()
    ensures identifier { (octets : List ℕ) (id : Identifier)
        → IsIdentifier octets id
        → der_rule.allows_identifier octets ≡ true
        → IsStrictIdentifier octets id }
    ensures length { (octets : List ℕ) (n : ℕ)
        → IsLength octets n
        → der_rule.allows_length octets ≡ true
        → IsStrictLength octets n }
    ensures element { (octets : List ℕ) (parts : Parts)
        → IsDerElement octets parts
        → IsStrictElement octets parts.id parts.content }
{}

/// DER and BER allow what a writer writes (X.690 10.1).
pub fn rules_allow_strict()
    ensures der { AllowsStrict der_rule }
    ensures ber { AllowsStrict ber_rule }
{}

/// Identifier and contents octets that fit have exactly one strict element (X.690 10.1). It is an element of definite
/// length by each rule that allows it. No strict element begins another one.
pub fn strict_elements_unique()
    ensures exists { (id : Identifier) (content : List ℕ)
        → id.class < 4
        → id.number < 2 ^ 32
        → length content < 2 ^ 64
        → IsOctets content
        → IsStrictElement (element_octets id content) id content }
    ensures no_other { (octets : List ℕ) (id : Identifier) (content : List ℕ)
        → IsStrictElement octets id content
        → octets ≡ element_octets id content }
    ensures lenient { (rule : Rule)
        → AllowsStrict rule
        → (octets : List ℕ) (id : Identifier) (content : List ℕ)
        → IsStrictElement octets id content
        → IsDefiniteElement rule octets (definite_parts id content) }
    ensures apart { (front other rest tail : List ℕ) (front_id other_id : Identifier)
        (front_content other_content : List ℕ)
        → IsStrictElement front front_id front_content
        → IsStrictElement other other_id other_content
        → front ++ rest ≡ other ++ tail
        → (front ≡ other) × (front_id ≡ other_id) ×
        (front_content ≡ other_content) × (rest ≡ tail) }
{}
