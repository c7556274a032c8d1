//! The laws of elements by BER, nested to a depth, and of their faults.

ghost use Rattle.std.specs.Prelude.{ℕ, List, ◌++◌, ◌≡◌, ◌+◌, ◌-◌, ◌*◌, ◌≤◌, ◌⊎◌, length};
ghost use Rattle.std.specs.List.{concat};
ghost use Rattle.x690.specs.Octets.{IsOctets, BeginsWith};
ghost use Rattle.x690.specs.Identifiers.{Identifier};
ghost use Rattle.x690.specs.Lengths.{LengthForm, definite};
ghost use Rattle.x690.specs.Rules.{Rule, ber_rule};
ghost use Rattle.x690.specs.Elements.{Parts, ArePossible, IsHeader, IsDefiniteElement, BeginsWithElement};
ghost use Rattle.x690.specs.Faults.{Fault, missing, tag_fault, HasFault, SpeaksOf, IsLackingOrTruncated};
ghost use Rattle.x690.specs.Nested.{IsNestedElement, IsElement, IsWord, IsRow, ElementFault, EndsInIdentifier};
ghost use Rattle.x690.specs.Nested.{end_of_contents};
ghost use Rattle.x690.specs.Nested.Contents.{IsContent, BeginsWithContent, ContentFault};
ghost use Rattle.x690.specs.Nested.FaultHeaders.{FaultHeaders};

/// Two elements that begin one input are the same, of whatever depths (X.690 8.1.1). They have the same parts and as
/// many headers, and the same octets follow. An element has a class from 0 to 3, and a tag number below 2^32.
pub fn nested_elements_unique()
    ensures unique { (depth other_depth : ℕ) (input front other rest tail : List ℕ)
        (front_parts other_parts : Parts) (front_headers other_headers : ℕ)
        → IsNestedElement depth front front_parts front_headers → BeginsWith input front rest
        → IsNestedElement other_depth other other_parts other_headers → BeginsWith input other tail
        → (front ≡ other) × (front_parts ≡ other_parts) ×
        (front_headers ≡ other_headers) × (rest ≡ tail) }
    ensures octets { (depth : ℕ) (octets : List ℕ) (parts : Parts) (headers : ℕ)
        → IsNestedElement depth octets parts headers → IsOctets octets }
    ensures possible { (depth : ℕ) (octets : List ℕ) (parts : Parts) (headers : ℕ)
        → IsNestedElement depth octets parts headers → ArePossible parts }
{}

/// The element that begins an input begins each extension of it too, and no other does.
pub fn nested_elements_last()
    ensures { (depth : ℕ) (input more front other rest tail : List ℕ)
        (front_parts other_parts : Parts) (front_headers other_headers : ℕ)
        → IsNestedElement depth front front_parts front_headers → BeginsWith input front rest
        → IsNestedElement depth other other_parts other_headers
        → BeginsWith (input ++ more) other tail
        → (other ≡ front) × (other_parts ≡ front_parts) ×
        (other_headers ≡ front_headers) × (tail ≡ rest ++ more) }
{}

/// Octets split in one way into elements of one depth and the two zero octets that end them (X.690 8.1.5).
pub fn contents_split_in_one_way()
    ensures { (depth : ℕ) (input : List ℕ) (words others : List (List ℕ)) (rest tail : List ℕ)
        (headers other_headers : ℕ)
        → IsRow (IsWord depth) words headers
        → BeginsWith input (concat words) (end_of_contents ++ rest)
        → IsRow (IsWord depth) others other_headers
        → BeginsWith input (concat others) (end_of_contents ++ tail)
        → (words ≡ others) × (headers ≡ other_headers) × (rest ≡ tail) }
{}

/// An element of definite length is an element by BER of every depth from 1 on, with one header, whichever rule it
/// keeps. It is the only kind that counts its contents octets (X.690 8.1.3.6).
pub fn definite_elements_are_nested()
    ensures nested { (rule : Rule) (depth : ℕ) (octets : List ℕ) (parts : Parts)
        → 1 ≤ depth → IsDefiniteElement rule octets parts → IsNestedElement depth octets parts 1 }
    ensures definite { (depth : ℕ) (octets : List ℕ) (parts : Parts) (headers n : ℕ)
        → parts.form ≡ definite n → IsNestedElement depth octets parts headers
        → IsDefiniteElement ber_rule octets parts × (headers ≡ 1) }
{}

/// An element of one depth is an element of each greater depth.
pub fn depths_include_lesser_ones()
    ensures { (depth deeper : ℕ) (octets : List ℕ) (parts : Parts) (headers : ℕ)
        → depth ≤ deeper
        → IsNestedElement depth octets parts headers → IsNestedElement deeper octets parts headers }
{}

/// An element has two octets at least, and two for each of its headers that a reader passes.
pub fn headers_are_few()
    ensures two { (depth : ℕ) (octets : List ℕ) (parts : Parts) (headers : ℕ)
        → IsNestedElement depth octets parts headers → 2 ≤ length octets }
    ensures half { (depth : ℕ) (octets : List ℕ) (parts : Parts) (headers : ℕ)
        → IsNestedElement depth octets parts headers → 2 * headers ≤ length octets }
{}

/// A fault is final: where octets have one, no element of the depth begins them, nor any extension of them of which
/// the fault speaks.
pub fn nested_faults_are_final()
    ensures { (depth : ℕ) (input more : List ℕ) (fault : Fault)
        → ElementFault depth input fault → SpeaksOf (EndsInIdentifier depth input) fault more
        → (front rest : List ℕ) (parts : Parts) (headers : ℕ)
        → IsNestedElement depth front parts headers → BeginsWith (input ++ more) front rest → ⊥ }
{}

/// Appending n octets would make the input begin with an element of the depth. Then its fault is that m octets are
/// missing, with m at most n. Of an input that ends within an identifier in high form, that is the fault.
pub fn nested_beginnings_lack_octets()
    ensures lacking { (depth : ℕ) (input more front rest : List ℕ) (parts : Parts) (headers : ℕ)
        (fault : Fault)
        → ElementFault depth input fault
        → IsNestedElement depth front parts headers → BeginsWith (input ++ more) front rest
        → IsLackingOrTruncated (EndsInIdentifier depth input) fault more }
    ensures within { (depth : ℕ) (input : List ℕ)
        → EndsInIdentifier depth input
        → ElementFault depth input tag_fault }
{}

/// Octets that no element of the depth begins have a fault, with a count of headers that are read whole before it.
/// Octets that begin with no contents octets of a form have one too. It can be computed which of the two holds.
///
/// That they are octets is needed: 0 and then the number 256 have no fault. No element begins them, nor contents octets
/// that end with `00 00`.
pub fn nested_faults_are_complete()
    ensures element { (depth : ℕ) (input : List ℕ)
        → IsOctets input
        → BeginsWithElement (IsElement depth) input ⊎ HasFault (ElementFault depth) input }
    ensures headers { (depth : ℕ) (input : List ℕ)
        → IsOctets input
        → BeginsWithElement (IsElement depth) input ⊎
        ((headers : ℕ) × FaultHeaders depth input headers) }
    ensures content { (form : LengthForm) (depth : ℕ) (input : List ℕ)
        → IsOctets input
        → BeginsWithContent form depth input ⊎ HasFault (ContentFault form depth) input }
{}

/// Octets that an element of the depth begins have no fault.
pub fn nested_elements_have_no_fault()
    ensures { (depth : ℕ) (input front rest : List ℕ) (parts : Parts) (headers : ℕ)
        → IsNestedElement depth front parts headers → BeginsWith input front rest
        → (fault : Fault) → ElementFault depth input fault → ⊥ }
{}

/// Octets have one fault of an element at most, and where octets are missing one is missing at least. So which fault
/// is the first, and how many octets are missing, are determined.
pub fn one_nested_fault()
    ensures one { (depth : ℕ) (input : List ℕ) (fault other : Fault)
        → ElementFault depth input fault → ElementFault depth input other → fault ≡ other }
    ensures some { (depth : ℕ) (input : List ℕ) (n : ℕ)
        → ElementFault depth input (missing n)
        → 1 ≤ n }
{}

/// Octets that have a fault of an element of the depth have one count of headers that are read whole before it. They
/// have two octets at least for each of these headers. No other octets have a count (X.690 8.1.3.6, 8.1.5).
pub fn headers_before_faults_are_determined()
    ensures one { (depth : ℕ) (input : List ℕ) (headers other : ℕ)
        → FaultHeaders depth input headers → FaultHeaders depth input other → headers ≡ other }
    ensures half { (depth : ℕ) (input : List ℕ) (headers : ℕ)
        → FaultHeaders depth input headers → 2 * headers ≤ length input }
    ensures counted { (depth : ℕ) (input : List ℕ) (fault : Fault)
        → ElementFault depth input fault → (headers : ℕ) × FaultHeaders depth input headers }
    ensures fault { (depth : ℕ) (input : List ℕ) (headers : ℕ)
        → FaultHeaders depth input headers → (fault : Fault) × ElementFault depth input fault }
{}

/// Octets begin in one way at most with the contents octets that a length of a form announces, whatever follows. They
/// have one fault of them at most, and not both (X.690 8.1.3, 8.1.5).
pub fn contents_are_determined()
    ensures unique { (form : LengthForm) (depth : ℕ) (input content other rest tail : List ℕ)
        (headers other_headers : ℕ)
        → IsContent form depth input content rest headers
        → IsContent form depth input other tail other_headers
        → (content ≡ other) × (rest ≡ tail) × (headers ≡ other_headers) }
    ensures last { (form : LengthForm) (depth : ℕ) (input content rest more : List ℕ) (headers : ℕ)
        → IsContent form depth input content rest headers
        → IsContent form depth (input ++ more) content (rest ++ more) headers }
    ensures one_fault { (form : LengthForm) (depth : ℕ) (input : List ℕ) (fault other : Fault)
        → ContentFault form depth input fault
        → ContentFault form depth input other
        → fault ≡ other }
    ensures no_fault { (form : LengthForm) (depth : ℕ) (input content rest : List ℕ) (headers : ℕ)
        (fault : Fault)
        → IsContent form depth input content rest headers
        → ContentFault form depth input fault
        → ⊥ }
{}

/// A header and the contents octets behind it are an element, with one header more. A fault of them is one of the
/// element (X.690 8.1.1).
pub fn headers_and_contents_are_elements()
    ensures element { (depth : ℕ) (input header after content rest : List ℕ) (id : Identifier)
        (form : LengthForm) (headers : ℕ)
        → 1 ≤ depth
        → IsOctets after
        → IsHeader ber_rule header id form
        → BeginsWith input header after
        → IsContent form (depth - 1) after content rest headers
        → (word : List ℕ) ×
        IsNestedElement depth word (record { id = id; form = form; content = content })
        (headers + 1) ×
        BeginsWith input word rest }
    ensures fault { (depth : ℕ) (input header after : List ℕ) (id : Identifier)
        (form : LengthForm) (fault : Fault)
        → 1 ≤ depth → IsHeader ber_rule header id form → BeginsWith input header after
        → ContentFault form (depth - 1) after fault → ElementFault depth input fault }
{}
