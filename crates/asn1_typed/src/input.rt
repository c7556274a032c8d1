//! Octets of a file.

/// Octets, where they stand in a file, and the name by which messages tell the file.
#[derive(Debug, Clone, Copy)]
pub struct Input<'a> {
    /// The name.
    pub name: &'a str,
    /// How many octets of the file stand before these.
    pub offset: usize,
    /// The octets.
    pub octets: &'a [u8],
}
