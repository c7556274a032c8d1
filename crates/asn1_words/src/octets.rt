//! Octets behind others.
ghost use Rattle.std.specs.Prelude.{◌≡◌, drop};

/// The octets from an offset on, or none where there are fewer.
#[tactic(auto, using(std::proofs::lemmas::List::drop_all))]
pub fn behind(octets: &[u8], offset: usize) -> &[u8]
    ensures { result.now ≡ drop offset octets.now }
{
    if octets.len() < offset {
        return &[];
    }
    let (_front, rest) = octets.split_at(offset);
    rest
}
