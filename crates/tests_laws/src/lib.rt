//! That the laws of `asn1_rs` can be called: their bounds and what they ask are met at concrete types. The crate is
//! proved, and has nothing to run.
#![tactic(auto)]

mod calls;
mod deep_types;

pub use calls::{
    laws_are_called, laws_of_each_type_are_called, numbers_are_read_without_memory,
    numbers_are_written_without_memory, octets_and_strings_are_read_without_memory,
    octets_and_strings_are_written_without_memory, sets_are_counted_without_memory,
    times_elements_and_tags_are_read_without_memory,
    times_elements_tags_and_lists_are_written_without_memory,
};
pub use deep_types::{
    Implicit, Mixed, Tagged, implicit_tags_by_ber, implicit_tags_by_der,
    lists_sets_and_tags_by_der, tags_and_lists_by_ber,
};
