//! The members of a set-of, in the order of their encodings (X.690 11.6).
ghost use Rattle.std.specs.Prelude.{ℕ, ◌≡◌, true, OnOk, map};
ghost use Rattle.std.specs.List.Sorted.{IsPermutation};
ghost use Rattle.json.specs.Value.{items_of};
ghost use Rattle.asn1_schema.specs.Sound.{is_sound};
ghost use Rattle.asn1_json.specs.Denotes.{Denotes, DenoteItems};
ghost use Rattle.asn1_json.specs.Outcomes.{AreJsonMembers, MakesRow, document_of};
ghost use Rattle.asn1_json.specs.Tokens.{Types as SpecTypes};

use crate::reading::leaf::By;
use crate::reading::trail::{Fault, Reason, Trail};
use asn1_headers::buffer::DerBuffer;
use asn1_schema::encode::{EncodeError, encode_der};
use asn1_schema::owned::OwnedTape;
use json::Value;
use std::alloc::{AllocError, Global};

/// A member: what it was read from, its tape, and its strict encoding.
#[derive(Debug, Drop)]
pub(super) struct Member<'v, 'a> {
    /// What it was read from.
    pub(super) item: &'v Value<'a>,
    /// Its tape.
    pub(super) made: OwnedTape,
    /// Its strict encoding.
    pub(super) octets: DerBuffer,
}

/// The strict encoding of the value of a tape.
pub(super) fn encoded(
    by: By<'_, '_>,
    of: usize,
    made: &OwnedTape,
    trail: &mut Trail,
) -> Result<DerBuffer, Fault>
    requires { is_sound by.types.table.now ≡ true }
{
    let tape = made.lend(by.alloc)?;
    let mut octets = DerBuffer::new(by.alloc);
    match encode_der(by.types.table, of, by.depth, &tape, &mut octets) {
        Ok(()) => Ok(octets),
        Err(EncodeError::OutOfMemory) => Err(Fault::Memory),
        Err(EncodeError::Refused) => Err(trail.refused(of, Reason::Value)),
    }
}

/// Puts members into the order of their strict encodings.
pub(super) fn arrange(members: &mut Vec<Member<'_, '_>>) -> Result<(), AllocError>
    ensures { IsPermutation members.old.items members.new.items }
{
    members.sort_by(|a: &Member<'_, '_>, b: &Member<'_, '_>| a
        .octets
        .as_bytes()
        .cmp(b.octets.as_bytes()))
}

/// Puts members on a tape, in their order.
pub(super) fn put_members(
    alloc: Global,
    members: &[Member<'_, '_>],
    made: &mut OwnedTape,
) -> Result<(), AllocError>
    ensures { (types : SpecTypes) (depth nesting of : ℕ) →
        AreJsonMembers (Denotes types depth nesting of) members.now → OnOk result (MakesRow
        (DenoteItems (Denotes types depth nesting of) (items_of (map document_of members.now)))
        made.old made.new) }
{
    for member in members {
        let tape = member.made.lend(alloc)?;
        made.append(&tape)?;
    }
    Ok(())
}
