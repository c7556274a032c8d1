//! Whether octets are strict DER, whatever their type, and where and why they are not.
#![tactic(auto)]

pub mod requirement;
pub mod rules;
pub mod sets;
pub mod walk;

pub use requirement::{Departure, Requirement};
pub use walk::{departure_of_der, departure_of_row};
