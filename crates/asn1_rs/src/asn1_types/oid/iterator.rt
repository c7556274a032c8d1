//! The iterator over the arcs of an object identifier.
ghost use Rattle.std.specs.Prelude.{◌<◌, ◌^◌};
ghost use Rattle.std.specs.List.{All};
ghost use Rattle.x690.specs.Arcs.{arcs_of};

/// The arcs of an object identifier, or of a relative one, each of which is below 2^64 (X.690 8.19, 8.20).
///
/// They are read from the contents octets one by one, so no memory is asked for.
// By its ghost field `next` needs no condition. It has no `Clone`: the checker refuses
// `#[derive(Clone, Drop)] struct G { v: u8, ghost ok: { v < 9 } }`.
#[derive(Debug, Drop)]
pub struct SubIdentifierIterator<'a> {
    /// The contents octets that are left.
    pub(crate) left: &'a [u8],
    /// Whether each subidentifier left is an arc: the first one of an object identifier is two.
    pub(crate) relative: bool,
    /// The second arc of the first subidentifier, where the first one was given last.
    pub(crate) second: Option<u64>,
    ghost fits: { All (λ arc. arc < 2 ^ 64) (arcs_of relative left.now) },
}
