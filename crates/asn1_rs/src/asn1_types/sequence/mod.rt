//! Sequences (X.690 8.9, 8.10).

pub mod iterator;
pub mod sequence_of;
mod vec;
