//! What the program `asn1` says by the text of modules: their types, and whether these are sound.
#![tactic(auto)]

pub mod decoding;
mod defaults;
pub mod encoding;
pub mod input;
pub mod kinds;
pub mod labels;
pub mod listing;
pub mod normal;
mod order;
mod path;
pub mod places;
pub mod reading;
pub mod refusals;
pub mod sought;
pub mod source;
pub mod standards;
pub mod strict;
pub mod tables;
pub mod tags;

pub use decoding::{Decoded, Decoding, decode, decode_lines};
pub use encoding::{Encoded, encode};
pub use input::Input;
pub use listing::types;
pub use normal::normal_form;
pub use sought::{TypeName, type_named};
pub use source::Source;
pub use strict::check_typed;
pub use tables::{TypeTable, sound_types};
