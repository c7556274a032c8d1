//! The encoding rules of ITU-T X.690 on lists of octets, and their laws.
//!
//! The crate has three layers:
//!
//! - Definitions (`specs/`): what identifier octets, length octets, headers, elements, joined words, sets and times
//!   are. Each is a relation between octets and what they say, in the words of the standard.
//! - Laws: functions with an empty body, whose contracts are the laws. Octets have one reading, each value has one
//!   strict form, and octets that no word begins have one first fault.
//! - Functions over plain octets: numbers, characters, arcs and texts of times. They take no memory but what the caller
//!   lends.
//!
//! `IsIdentifier` is the first definition to read, and this law is the first one to read:
//!
//! ```rust
//! pub fn identifiers_unique()
//!     ensures unique { (input front other rest tail : List ℕ) (front_id other_id : Identifier)
//!         → IsIdentifier front front_id → BeginsWith input front rest
//!         → IsIdentifier other other_id → BeginsWith input other tail
//!         → (front ≡ other) × (front_id ≡ other_id) × (rest ≡ tail) }
//! ```
//!
//! Two identifiers that begin one input are the same octets, with the same class, constructed bit and number. The same
//! octets follow. A caller uses the law by a call, `identifiers_unique();`, and its proof then has the contract.
//!
//! - `identifiers`, `lengths`, `elements`, `nested`: the laws of what stands at the front of octets.
//! - `joined`, `collections`, `ascending`: those of what stands one behind another, and of sets.
//! - `arcs`, `shortest`, `integers`, `signed`, `characters`, `sets`, `times`: those of contents octets.
//! - `strict`: each identifier, length and element has one strict form.
//!
//! `docs/DEFINITIONS.md` has the words in plain English. The crate stands on std alone.
#![tactic(auto)]

pub mod arcs;
pub mod ascending;
pub mod characters;
pub mod collections;
pub mod digits;
pub mod elements;
pub mod identifiers;
pub mod integers;
pub mod joined;
pub mod lengths;
pub mod nested;
pub mod octets;
pub mod sets;
pub mod shortest;
pub mod signed;
pub mod strict;
pub mod times;

ghost use Rattle.std.specs.Prelude.{ℕ, List, ◌≡◌, ◌++◌};
ghost use Rattle.x690.specs.Octets.{IsOctets};
ghost use Rattle.x690.specs.Laws.Octets.{octets_append};

pub use arcs::{
    arc_texts_are_short, arcs_come_back, arcs_have_one_text, beginnings_have_the_first_arcs,
    contents_are_pieces, few_octets_have_small_arcs, first_pairs_are_unique,
    shortest_contents_are_determined,
};
pub use ascending::{ascending_strings_are_in_order, strings_have_one_ascending_arrangement};
pub use characters::{
    octets_are_numbers_of_characters, texts_are_told_apart, utf8_texts_are_octets,
    utf16_and_ucs4_are_codes,
};
pub use collections::{
    Encodings, StrictElements, collections_are_encoded, collections_are_lists_up_to_order,
    collections_have_one_content, contents_have_one_collection, contents_of_encodings,
    encodings_have_one_order, sets_of_strict_elements_have_one_content,
};
pub use elements::{
    beginnings_lack_octets, definite_elements_unique, der_headers_are_ber_headers,
    faults_are_complete, faults_are_final, headers_unique, one_fault, some_octets_are_missing,
    words_have_no_fault,
};
pub use identifiers::identifiers_unique;
pub use integers::integers_have_one_content;
pub use joined::{
    DerElements, Words, der_elements_split_in_one_way, elements_are_words, joined_octets_are_words,
    joinings_split_in_one_way,
};
pub use lengths::lengths_unique;
pub use nested::{
    contents_are_determined, contents_split_in_one_way, definite_elements_are_nested,
    depths_include_lesser_ones, headers_and_contents_are_elements, headers_are_few,
    headers_before_faults_are_determined, nested_beginnings_lack_octets,
    nested_elements_have_no_fault, nested_elements_last, nested_elements_unique,
    nested_faults_are_complete, nested_faults_are_final, one_nested_fault,
};
pub use octets::{dictionary_order_is_total, first_difference_decides, padding_changes_no_order};
pub use sets::characters_are_octets;
pub use signed::octets_hold_their_integers;
pub use times::reading::{said_times_are_in_range, texts_say_one_time};
pub use times::writing::{strict_texts_are_short, strict_texts_read_back};

/// Octet strings, one after the other, are an octet string.
pub fn octets_join()
    ensures { (x y : List ℕ) → IsOctets x → IsOctets y → IsOctets (x ++ y) }
{}
