//! Values as JSON.
ghost use Rattle.std.specs.Prelude.{◌≡◌, ◌++◌, Some, OnOk, IfOk, IsErrOf, IsUtf8};
ghost use Rattle.asn1_schema.specs.Tape.{Kept, marks, tape_of, value_of};
ghost use Rattle.asn1_json.specs.Tokens.{given_types, tokens_of};
ghost use Rattle.asn1_json.specs.Shown.{layout, of_schema};
ghost use Rattle.asn1_json.specs.declared.error.JsonError.TheVariants as errors;

use crate::error::JsonError;
use crate::out::{OneLine, TokenWriter};
use crate::types::Types;
use crate::walk::{Frame, Left, step};
use asn1_schema::build::Schema;
use asn1_schema::tape::Item;
use json::Pretty;
use std::alloc::Global;

/// Writes the value of a tape, by the type at a place of a table.
pub fn write_value<W: TokenWriter>(
    alloc: Global,
    types: Types<'_, '_>,
    of: usize,
    tape: &[Item<'_>],
    out: &mut W,
) -> Result<(), JsonError>
    ensures tokens { (kept : Kept) → marks tape.now ≡ tape_of kept →
        OnOk result (W.written out.new ≡
        W.written out.old ++ tokens_of (given_types types.entry) (Some of) (value_of kept)) }
    ensures none { IsErrOf result errors.NoValue →
        (kept : Kept) → marks tape.now ≡ tape_of kept → ⊥ }
{
    let mut frames = Vec::from_array(alloc, [Frame::Value(Some(of))])?;
    let mut left = Left { items: tape };
    while let Some(frame) = frames.pop() {
        left = step(alloc, types, frame, left, &mut frames, out)?;
    }
    if !left.items.is_empty() {
        return Err(JsonError::NoValue);
    }
    Ok(())
}

/// The value of a tape as a text of JSON: on one line, or with a line for each member.
pub fn json_of(
    alloc: Global,
    schema: &Schema<'_>,
    of: usize,
    tape: &[Item<'_>],
    pretty: bool,
) -> Result<Vec<u8>, JsonError>
    ensures text { (kept : Kept) → marks tape.now ≡ tape_of kept → IfOk result (λ text. text.items ≡
        layout pretty (tokens_of (of_schema schema.now) (Some of) (value_of kept))) }
    ensures utf8 { IfOk result (λ text. IsUtf8 text.items) }
    ensures none { IsErrOf result errors.NoValue →
        (kept : Kept) → marks tape.now ≡ tape_of kept → ⊥ }
{
    let types = Types {
        table: schema.nodes.as_slice(),
        names: schema.names.as_slice(),
    };
    if pretty {
        let mut out = Pretty::new(alloc);
        write_value(alloc, types, of, tape, &mut out)?;
        return Ok(out.into_inner());
    }
    let mut out = OneLine::new(alloc);
    write_value(alloc, types, of, tape, &mut out)?;
    Ok(out.into_inner())
}
