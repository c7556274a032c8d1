//! The laws of headers, of elements of definite length and of elements by DER, and of their faults.

ghost use Rattle.std.specs.Prelude.{ℕ, List, ◌++◌, ◌≡◌, ◌+◌, ◌≤◌, ◌⊎◌, length};
ghost use Rattle.x690.specs.Octets.{IsOctets, BeginsWith};
ghost use Rattle.x690.specs.Identifiers.{Identifier, IsTruncatedIdentifier};
ghost use Rattle.x690.specs.Lengths.{LengthForm, definite};
ghost use Rattle.x690.specs.Rules.{Rule, der_rule, ber_rule};
ghost use Rattle.x690.specs.Elements.{IsHeader, Parts, ArePossible, IsDefiniteElement, IsDerElement, BeginsWithHeader};
ghost use Rattle.x690.specs.Elements.{BeginsWithElement};
ghost use Rattle.x690.specs.Strict.{identifier_octets, length_octets};
ghost use Rattle.x690.specs.Faults.{Fault, missing, tag_fault, HeaderFault, DerElementFault, HasFault, SpeaksOf};
ghost use Rattle.x690.specs.Faults.{IsLackingOrTruncated};

/// Two headers that begin one input are the same and say the same, and the same octets follow (X.690 8.1.1). Each may
/// keep another rule. A header has two octets at least.
pub fn headers_unique()
    ensures unique { (rule other_rule : Rule) (input front other rest tail : List ℕ)
        (front_id other_id : Identifier) (front_form other_form : LengthForm)
        → IsHeader rule front front_id front_form → BeginsWith input front rest
        → IsHeader other_rule other other_id other_form → BeginsWith input other tail
        → (front ≡ other) × (front_id ≡ other_id) × (front_form ≡ other_form) × (rest ≡ tail) }
    ensures two { (rule : Rule) (octets : List ℕ) (id : Identifier) (form : LengthForm)
        → IsHeader rule octets id form → 2 ≤ length octets }
    ensures octets { (rule : Rule) (octets : List ℕ) (id : Identifier) (form : LengthForm)
        → IsHeader rule octets id form → IsOctets octets }
{}

/// A header by DER is a header by BER, counts its contents octets, and is the strict header (X.690 8.1.2, 10.1). BER
/// allows each header that counts them, whichever rule it keeps.
pub fn der_headers_are_ber_headers()
    ensures ber { (octets : List ℕ) (id : Identifier) (form : LengthForm)
        → IsHeader der_rule octets id form → IsHeader ber_rule octets id form }
    ensures counts { (octets : List ℕ) (id : Identifier) (form : LengthForm)
        → IsHeader der_rule octets id form → (n : ℕ) × (form ≡ definite n) }
    ensures strict { (octets : List ℕ) (id : Identifier) (n : ℕ)
        → IsHeader der_rule octets id (definite n)
        → octets ≡ identifier_octets id ++ length_octets n }
    ensures definite { (rule : Rule) (octets : List ℕ) (id : Identifier) (n : ℕ)
        → IsHeader rule octets id (definite n) → IsHeader ber_rule octets id (definite n) }
{}

/// Two elements of definite length that begin one input are the same and have the same parts, and the same octets
/// follow (X.690 8.1.1, 8.1.3.3). Each may keep another rule. An element has two octets more than its contents at
/// least, a class from 0 to 3 and a tag number below 2^32.
pub fn definite_elements_unique()
    ensures unique { (rule other_rule : Rule) (input front other rest tail : List ℕ)
        (front_parts other_parts : Parts)
        → IsDefiniteElement rule front front_parts → BeginsWith input front rest
        → IsDefiniteElement other_rule other other_parts → BeginsWith input other tail
        → (front ≡ other) × (front_parts ≡ other_parts) × (rest ≡ tail) }
    ensures two { (rule : Rule) (octets : List ℕ) (parts : Parts)
        → IsDefiniteElement rule octets parts → length parts.content + 2 ≤ length octets }
    ensures octets { (rule : Rule) (octets : List ℕ) (parts : Parts)
        → IsDefiniteElement rule octets parts → IsOctets octets }
    ensures possible { (rule : Rule) (octets : List ℕ) (parts : Parts)
        → IsDefiniteElement rule octets parts → ArePossible parts }
{}

/// A fault is final. Where octets have one, no header and no element by DER begins them, nor any extension of which the
/// fault speaks.
pub fn faults_are_final()
    ensures header { (rule : Rule) (input more : List ℕ) (fault : Fault)
        → HeaderFault rule input fault → SpeaksOf (IsTruncatedIdentifier input) fault more
        → (front rest : List ℕ) (id : Identifier) (form : LengthForm)
        → IsHeader rule front id form → BeginsWith (input ++ more) front rest → ⊥ }
    ensures der_element { (input more : List ℕ) (fault : Fault)
        → DerElementFault input fault → SpeaksOf (IsTruncatedIdentifier input) fault more
        → (front rest : List ℕ) (parts : Parts)
        → IsDerElement front parts → BeginsWith (input ++ more) front rest → ⊥ }
{}

/// Octets that no header, or no element by DER, begins have a fault: it can be computed which of the two holds.
///
/// That they are octets is needed: 0 and then the number 256 have no fault. No header begins them, since 256 is no
/// length octet and none that is wrong either.
pub fn faults_are_complete()
    ensures header { (rule : Rule) (input : List ℕ)
        → IsOctets input → BeginsWithHeader rule input ⊎ HasFault (HeaderFault rule) input }
    ensures der_element { (input : List ℕ)
        → IsOctets input → BeginsWithElement IsDerElement input ⊎ HasFault DerElementFault input }
{}

/// Octets that a header, or an element by DER, begins have no fault.
pub fn words_have_no_fault()
    ensures header { (rule : Rule) (input front rest : List ℕ) (id : Identifier) (form : LengthForm)
        → IsHeader rule front id form → BeginsWith input front rest
        → (fault : Fault) → HeaderFault rule input fault → ⊥ }
    ensures der_element { (input front rest : List ℕ) (parts : Parts)
        → IsDerElement front parts → BeginsWith input front rest
        → (fault : Fault) → DerElementFault input fault → ⊥ }
{}

/// Octets have one fault at most. So which fault is the first, and how many octets are missing, are determined.
pub fn one_fault()
    ensures header { (rule : Rule) (input : List ℕ) (fault other : Fault)
        → HeaderFault rule input fault → HeaderFault rule input other → fault ≡ other }
    ensures der_element { (input : List ℕ) (fault other : Fault)
        → DerElementFault input fault → DerElementFault input other → fault ≡ other }
{}

/// Where octets are missing, one is missing at least.
pub fn some_octets_are_missing()
    ensures header { (rule : Rule) (input : List ℕ) (n : ℕ)
        → HeaderFault rule input (missing n)
        → 1 ≤ n }
    ensures der_element { (input : List ℕ) (n : ℕ) → DerElementFault input (missing n) → 1 ≤ n }
{}

/// Appending n octets would make the input begin with a header, or with an element by DER. Then its fault is that m
/// octets are missing, with m at most n. Of an input that ends within an identifier in high form, that is the fault.
pub fn beginnings_lack_octets()
    ensures header { (rule : Rule) (input more front rest : List ℕ)
        (id : Identifier) (form : LengthForm) (fault : Fault)
        → HeaderFault rule input fault
        → IsHeader rule front id form
        → BeginsWith (input ++ more) front rest
        → IsLackingOrTruncated (IsTruncatedIdentifier input) fault more }
    ensures der_element { (input more front rest : List ℕ) (parts : Parts) (fault : Fault)
        → DerElementFault input fault
        → IsDerElement front parts
        → BeginsWith (input ++ more) front rest
        → IsLackingOrTruncated (IsTruncatedIdentifier input) fault more }
    ensures within { (rule : Rule) (input : List ℕ)
        → IsTruncatedIdentifier input
        → HeaderFault rule input tag_fault }
{}
