//! The engine of the program `asn1vec`: it answers each line of its input with one line.
//!
//! It is no part of `asn1vec`, since a program's crate can't be a dependency of the tests. The crate below makes the
//! answer to a line. That crate is dear to prove, and this one is cheap.
#![tactic(auto)]

mod engine;

pub use engine::{RunError, one_output, run};
