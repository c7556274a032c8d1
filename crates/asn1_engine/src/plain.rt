//! Whether octets seem to be a text.
ghost use Rattle.std.specs.Prelude.{◌≡◌, ◌↔◌, IsTrue};
ghost use Rattle.std.specs.List.{list_all};
ghost use Rattle.asn1_engine.specs.Plain.{SeemsText, is_written};

/// Whether no octet is of a control character, but for white space.
fn are_written(octets: &[u8]) -> bool
    ensures { result ≡ list_all is_written octets.now }
{
    for octet in octets {
        if *octet < b' ' && !octet.is_ascii_whitespace() {
            return false;
        }
    }
    true
}

/// Whether the octets seem to be a text, as JSON and XML are. It is asked of octets that are refused, for a hint.
pub fn seems_text(octets: &[u8]) -> bool
    ensures { IsTrue result ↔ SeemsText octets.now }
{
    are_written(octets) && str::from_utf8(octets).is_ok()
}
