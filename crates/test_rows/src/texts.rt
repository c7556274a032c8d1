//! Values that are compared by their texts.

use std::alloc::Global;
use std::fmt::{Debug, Display, Write};
use std::test::Fail;

/// Asserts that a text, of which this is said, is the one that is expected.
pub fn assert_text(what: &str, text: &str, expected: &str) -> Result<(), Fail> {
    if text == expected {
        return Ok(());
    }
    Err(Fail::new(format_args!("{what}: {text}, and not {expected}")))
}

/// Asserts that a value has this derived text.
pub fn assert_shown<T: Debug>(alloc: Global, value: &T, expected: &str) -> Result<(), Fail> {
    let text = format!(in alloc; "{value:?}")?;
    assert_text("a value", text.as_str(), expected)
}

/// Asserts the texts of values, a line for each.
pub fn assert_texts<T: Display>(alloc: Global, values: &[T], expected: &str) -> Result<(), Fail> {
    let mut text = String::new(alloc);
    for value in values {
        writeln!(text, "{value}")?;
    }
    assert_text("texts", text.as_str(), expected)
}

/// Asserts that all of these are so.
pub fn assert_all(what: &str, facts: &[bool]) -> Result<(), Fail> {
    for (place, fact) in facts.iter().enumerate() {
        if !*fact {
            return Err(Fail::new(format_args!("{what}: {place} is not so")));
        }
    }
    Ok(())
}

/// Appends the derived text of a value.
pub fn push_debug<T: Debug>(text: &mut String, value: &T) -> Result<(), Fail> {
    Ok(write!(text, "{value:?}")?)
}
