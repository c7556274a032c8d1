//! Members of sets: what a law about equality gives a caller, and an item to which the law cannot be given. A struct of
//! fields that has laws, since its optional field is told from the field behind that one.
#![tactic(auto)]

mod members;
mod remainder;
mod told;

pub use members::{Numbers, are_same, are_same_numbers};
pub use remainder::Remainder;
pub use told::{Flagged, FlaggedRow};
