//! What the program `asn1` says of octets: the tree of their elements, and whether they are strict DER.
#![tactic(auto)]

pub mod departures;
pub mod documents;
mod elements;
pub mod error;
pub mod heads;
mod inner;
mod lines;
pub mod objects;
pub mod outcome;
pub mod pem;
pub mod plain;
mod shortfalls;
pub mod standing;
pub mod tags;
pub mod texts;
pub mod trees;
pub mod values;
pub mod verdicts;
mod wording;

pub use error::{Finding, RunError};
pub use trees::{Options, dump, dump_at, push_first_line};
pub use verdicts::{check, check_all};
