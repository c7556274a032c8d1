//! Lines.

use asn1_headers::class::Class;
use asn1_headers::length::Length;

/// What is said of an element.
#[derive(Debug, Clone, Copy, PartialEq, Eq)]
pub struct Line<'a> {
    /// The offset of its first octet.
    pub offset: usize,
    /// How many elements it stands in.
    pub depth: usize,
    /// The number of its identifier and length octets.
    pub header_len: usize,
    /// Its class.
    pub class: Class,
    /// Whether its contents are elements.
    pub constructed: bool,
    /// Its tag number.
    pub number: u32,
    /// The length that its header says.
    pub length: Length,
    /// Its contents octets. In the indefinite form these are all octets that follow the header within the element that
    /// it stands in, or to the end.
    pub content: &'a [u8],
}
