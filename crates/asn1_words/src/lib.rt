//! Numbers of any size, identifiers and octets in characters, as several programs write them.
#![tactic(auto)]

pub mod decimals;
pub mod identifiers;
pub mod octets;
pub mod words;
