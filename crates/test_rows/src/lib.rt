//! What tests share: values that are compared by their texts, and octets in hexadecimal digits.
#![tactic(auto)]

mod digits;
mod texts;

pub use digits::{octets_of, push_digits};
pub use texts::{assert_all, assert_shown, assert_text, assert_texts, push_debug};
