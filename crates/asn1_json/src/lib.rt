//! Values of the types of tables as JSON (ITU-T X.697).
#![tactic(auto)]

pub mod bits;
pub mod error;
pub mod front;
pub mod laws;
pub mod leaves;
pub mod out;
pub mod reading;
pub mod shown;
pub mod texts;
pub mod types;
pub mod walk;

pub use error::JsonError;
pub use out::TokenWriter;
pub use reading::{FromJsonError, JsonRefusal, tape_from_json};
pub use shown::{json_of, write_value};
