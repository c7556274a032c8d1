//! JSON as octets, by a type of a table.
ghost use Rattle.std.specs.Prelude.{ℕ, ◌≡◌, true, IfOk};
ghost use Rattle.asn1_schema.specs.Owned.{owned_marks};
ghost use Rattle.asn1_schema.specs.Sound.{is_sound};
ghost use Rattle.asn1_schema.specs.Tape.{Kept, tape_of, value_of};
ghost use Rattle.asn1_schema.specs.Values.{Value as SpecValue};
ghost use Rattle.asn1_typed.specs.Encodings.{IsEncoded, IsEncodedAs};

use crate::input::Input;
use crate::kinds::{self, push_named};
use crate::reading::MOST_DEPTH;
use asn1_engine::RunError;
use asn1_json::reading::Reason;
use asn1_json::{FromJsonError, JsonRefusal, tape_from_json};
use asn1_module::mistake::position;
use asn1_schema::build::Schema;
use asn1_schema::encode::{EncodeError, encode_der_vec};
use asn1_schema::laws::tapes_begin_with_one_value;
use asn1_schema::owned::OwnedTape;
use asn1_words::words::{push_number, push_str};
use std::alloc::{AllocError, Global};

/// What JSON says by a type.
#[derive(Debug, Drop)]
pub enum Encoded {
    /// The strict encoding of its value.
    Value(Vec<u8>),
    /// The line of a refusal.
    Refused(Vec<u8>),
}

/// Appends the names that lead to a part behind a comma, where there are some.
fn push_names(text: &mut Vec<u8>, path: &[u8]) -> Result<(), AllocError> {
    if path.is_empty() {
        return Ok(());
    }
    push_str(text, ", ")?;
    text.extend_from_slice(path)
}

/// Appends the line of a refusal: the name, the line and the column of the text, both from 1, the names that lead to
/// the part, the type that it is refused for, and why.
fn push_refused(
    text: &mut Vec<u8>,
    input: Input<'_>,
    schema: &Schema<'_>,
    refusal: &JsonRefusal,
) -> Result<(), AllocError> {
    let (line, column) = position(input.octets, refusal.octet);
    push_str(text, input.name)?;
    push_str(text, ":")?;
    push_number(text, line as u64)?;
    push_str(text, ":")?;
    push_number(text, column as u64)?;
    push_names(text, &refusal.path)?;
    push_str(text, " (")?;
    push_named(text, schema, refusal.of, kinds::MOST_DEPTH)?;
    push_str(text, "): ")?;
    push_str(text, refusal.reason.words())?;
    push_str(text, "\n")
}

/// The line of a refusal.
fn refused(
    alloc: Global,
    schema: &Schema<'_>,
    input: Input<'_>,
    refusal: &JsonRefusal,
) -> Result<Encoded, RunError>
    ensures written { (of : ℕ) (value : SpecValue) → IfOk result (IsEncodedAs schema.now of value) }
    ensures encoded { (of : ℕ) → IfOk result (IsEncoded schema.now of input.entry) }
{
    let mut line = Vec::new(alloc);
    push_refused(&mut line, input, schema, refusal)?;
    Ok(Encoded::Refused(line))
}

/// The strict encoding of the value of a tape.
fn written(
    alloc: Global,
    schema: &Schema<'_>,
    of: usize,
    input: Input<'_>,
    made: &OwnedTape,
) -> Result<Encoded, RunError>
    requires { is_sound schema.now.nodes.items ≡ true }
    ensures { (kept : Kept) → owned_marks made.now ≡ tape_of kept →
        IfOk result (IsEncodedAs schema.now of (value_of kept)) }
{
    tapes_begin_with_one_value();
    let tape = made.lend(alloc)?;
    let nodes = schema.nodes.as_slice();
    let items = tape.as_slice();
    match encode_der_vec(alloc, nodes, of, MOST_DEPTH, items) {
        Ok(octets) => Ok(Encoded::Value(octets)),
        Err(EncodeError::OutOfMemory) => Err(RunError::OutOfMemory),
        Err(EncodeError::Refused) => {
            let path = Vec::new(alloc);
            let refusal = JsonRefusal {
                octet: 0,
                path,
                of,
                reason: Reason::Value,
            };
            refused(alloc, schema, input, &refusal)
        }
    }
}

/// Encodes the value that a text of JSON denotes by DER.
///
/// Of a refusal no clause says that the text denotes no value.
pub fn encode(
    alloc: Global,
    schema: &Schema<'_>,
    of: usize,
    input: Input<'_>,
) -> Result<Encoded, RunError>
    requires { is_sound schema.now.nodes.items ≡ true }
    ensures { IfOk result (IsEncoded schema.now of input.entry) }
{
    match tape_from_json(alloc, schema, of, MOST_DEPTH, input.octets) {
        Ok(made) => written(alloc, schema, of, input, &made),
        Err(FromJsonError::OutOfMemory) => Err(RunError::OutOfMemory),
        Err(FromJsonError::Refused(refusal)) => refused(alloc, schema, input, &refusal),
    }
}
