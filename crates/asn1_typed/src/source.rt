//! Texts with names.

/// The text of modules, and the name by which messages tell it.
#[derive(Debug, Clone, Copy)]
pub struct Source<'a> {
    /// The name, as that of a file.
    pub name: &'a str,
    /// The text, in octets.
    pub text: &'a [u8],
}
