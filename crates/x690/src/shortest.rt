//! Whether contents octets are subidentifiers, each in the fewest octets (X.690 8.19.2, 8.20.2).
ghost use Rattle.std.specs.Prelude.{◌≢◌, ◌↔◌, [], true, IsTrue};
ghost use Rattle.x690.specs.Arcs.{AreShortest, AreShortestFrom};
ghost use Rattle.x690.specs.Octets.{IsOctets};

/// Whether subidentifiers are shortest, told octet by octet.
fn are_shortest_from(content: &[u8]) -> bool
    ensures told { IsTrue result ↔ AreShortestFrom true content.now }
    ensures octets { IsOctets content.now }
{
    let mut start = true;
    for octet in content {
        if start && *octet == 128 {
            return false;
        }
        start = *octet < 128;
    }
    start
}

/// Whether there are subidentifiers, each in the fewest octets: the contents of an OBJECT IDENTIFIER or a RELATIVE-OID
/// (X.690 8.19.2, 8.20.2).
pub fn are_shortest_arcs(content: &[u8]) -> bool
    ensures { IsTrue result ↔ (content.now ≢ []) × AreShortest content.now }
{
    match content {
        [] => false,
        _ => are_shortest_from(content),
    }
}
