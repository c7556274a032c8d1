//! Where a default stands that a strict encoding leaves out (X.690 11.5).
ghost use Rattle.std.specs.Prelude.{◌≤◌, length};

use crate::path::{Element, front};
use asn1_words::octets::behind;

/// Whether two elements have one tag.
fn have_one_tag(element: &Element<'_>, other: &Element<'_>) -> bool {
    element.class == other.class && element.number == other.number
}

/// Where octets first have an element that the strict encoding of their value has not. Elements with other contents are
/// entered in both.
pub(crate) fn default_at(octets: &[u8], encoding: &[u8]) -> usize
    ensures { result ≤ length octets.now }
{
    let mut rest = octets;
    let mut others = encoding;
    let mut at = 0usize;
    for _ in 0..octets.len() {
        let (Some(element), Some(other)) = (front(rest), front(others)) else {
            break;
        };
        if !have_one_tag(&element, &other) {
            break;
        }
        if element.content == other.content {
            let len = element.header.saturating_add(element.content.len());
            rest = behind(rest, len);
            others = behind(others, other.header.saturating_add(other.content.len()));
            at = at.saturating_add(len);
        } else {
            rest = element.content;
            others = other.content;
            at = at.saturating_add(element.header);
        }
    }
    at.min(octets.len())
}
