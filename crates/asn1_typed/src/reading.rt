//! Octets, read by a type of a table.
ghost use Rattle.std.specs.Prelude.{◌≡◌, true, IfOk};
ghost use Rattle.asn1_schema.specs.Sound.{is_sound};
ghost use Rattle.asn1_typed.specs.Readings.{Reads, ReadsNext};

use asn1_engine::RunError;
use asn1_schema::build::Schema;
use asn1_schema::coding::Coding;
use asn1_schema::decode::{DecodeError, decode, decode_whole};
use asn1_schema::refusal::Refusal;
use asn1_schema::tape::Item;

/// Elements nest so deep at most.
pub const MOST_DEPTH: usize = 64;

/// Reads octets that are one value whole, and puts it on a tape. A refusal says where no value is, and why.
pub fn read<'a>(
    schema: &'a Schema<'_>,
    of: usize,
    coding: Coding,
    octets: &'a [u8],
    tape: &mut Vec<Item<'a>>,
) -> Result<Option<Refusal>, RunError>
    requires { is_sound schema.now.nodes.items ≡ true }
    ensures { IfOk result (Reads coding schema.entry.now.nodes.items of octets.entry.now tape.new.items) }
{
    let mut refusal = Refusal::none();
    match decode_whole(
        coding,
        &schema.nodes,
        of,
        MOST_DEPTH,
        octets,
        tape,
        &mut refusal,
    ) {
        Ok(()) => Ok(None),
        Err(DecodeError::OutOfMemory) => Err(RunError::OutOfMemory),
        Err(DecodeError::Refused) => Ok(Some(refusal)),
        Err(DecodeError::TooDeep) => Ok(Some(refusal)),
        Err(DecodeError::Incomplete(_)) => Ok(Some(refusal)),
        Err(DecodeError::TrailingOctets) => Ok(Some(refusal)),
    }
}

/// What stands at the front of octets.
#[derive(Debug, Clone, Copy)]
pub enum Next<'a> {
    /// A value, and these octets behind it.
    Value(&'a [u8]),
    /// None.
    Refused(Refusal),
}

/// Reads a value at the front of octets, and puts it on a tape. A refusal says where none is, and why.
pub fn read_next<'a>(
    schema: &'a Schema<'_>,
    of: usize,
    coding: Coding,
    octets: &'a [u8],
    tape: &mut Vec<Item<'a>>,
) -> Result<Next<'a>, RunError>
    requires { is_sound schema.now.nodes.items ≡ true }
    ensures { IfOk result (ReadsNext coding schema.entry.now.nodes.items of octets.entry.now tape.new.items) }
{
    let mut refusal = Refusal::none();
    match decode(
        coding,
        &schema.nodes,
        of,
        MOST_DEPTH,
        octets,
        tape,
        &mut refusal,
    ) {
        Ok(rest) => Ok(Next::Value(rest)),
        Err(DecodeError::OutOfMemory) => Err(RunError::OutOfMemory),
        Err(DecodeError::Refused) => Ok(Next::Refused(refusal)),
        Err(DecodeError::TooDeep) => Ok(Next::Refused(refusal)),
        Err(DecodeError::Incomplete(_)) => Ok(Next::Refused(refusal)),
        Err(DecodeError::TrailingOctets) => Ok(Next::Refused(refusal)),
    }
}
