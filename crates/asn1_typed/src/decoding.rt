//! Octets as JSON, by a type of a table.
ghost use Rattle.std.specs.Prelude.{ℕ, List, ◌≡◌, ◌≢◌, true, IfOk, IsErrOf};
ghost use Rattle.std.specs.Io.KnownBytes.{Appends};
ghost use Rattle.asn1_json.specs.declared.error.JsonError.TheVariants as errors;
ghost use Rattle.asn1_schema.specs.Sound.{is_sound};
ghost use Rattle.asn1_schema.specs.Tape.{Kept, marks, tape_of, value_of};
ghost use Rattle.asn1_typed.specs.Decodings.{DecodesNext, DecodesRow, IsDecoded, value_text};

use crate::input::Input;
use crate::reading::{Next, read, read_next};
use crate::refusals::push_refusal_and_element;
use asn1_engine::RunError;
use asn1_json::{JsonError, json_of};
use asn1_schema::build::Schema;
use asn1_schema::coding::Coding;
use asn1_schema::tape::Item;
use asn1_words::words::push_str;
use std::alloc::Global;
use std::io::Write;

/// How octets are decoded.
#[derive(Debug, Clone, Copy)]
pub struct Decoding {
    /// The rules that they are read by.
    pub coding: Coding,
    /// Whether JSON has a line for each member, or stands on one line.
    pub pretty: bool,
}

/// What octets say by a type.
#[derive(Debug, Drop)]
pub enum Decoded {
    /// Their value as JSON, with a line feed.
    Value(Vec<u8>),
    /// The line of a refusal, and of the element that begins at its octet.
    Refused(Vec<u8>),
}

/// What stands at the front of octets.
#[derive(Debug, Drop)]
enum NextLine<'a> {
    /// A value as JSON, with a line feed, and the octets behind it.
    Value(Vec<u8>, &'a [u8]),
    /// The line of a refusal, and of the element that begins at its octet.
    Refused(Vec<u8>),
}

/// The value of a tape as JSON, with a line feed.
fn value_line(
    alloc: Global,
    schema: &Schema<'_>,
    of: usize,
    tape: &[Item<'_>],
    pretty: bool,
) -> Result<Vec<u8>, JsonError>
    ensures text { (kept : Kept) → marks tape.now ≡ tape_of kept → IfOk result (λ text. text.items ≡
        value_text schema.now pretty of (value_of kept)) }
    ensures none { IsErrOf result errors.NoValue → (kept : Kept) → marks tape.now ≡ tape_of kept → ⊥ }
{
    let mut text = json_of(alloc, schema, of, tape, pretty)?;
    push_str(&mut text, "\n")?;
    Ok(text)
}

/// How a run ends where a value could not be shown.
fn run_error(error: JsonError) -> RunError
    requires { error ≢ errors.NoValue }
{
    match error {
        JsonError::OutOfMemory => RunError::OutOfMemory,
        JsonError::NoValue => unreachable!(),
    }
}

/// Decodes octets that are one value whole.
pub fn decode<'a>(
    alloc: Global,
    schema: &'a Schema<'_>,
    of: usize,
    by: Decoding,
    input: Input<'a>,
) -> Result<Decoded, RunError>
    requires { is_sound schema.now.nodes.items ≡ true }
    ensures { IfOk result (IsDecoded by schema.entry.now of input.entry) }
{
    let mut tape = Vec::new(alloc);
    match read(schema, of, by.coding, input.octets, &mut tape)? {
        None => match value_line(alloc, schema, of, &tape, by.pretty) {
            Ok(text) => Ok(Decoded::Value(text)),
            Err(error) => Err(run_error(error)),
        },
        Some(refusal) => {
            let mut line = Vec::new(alloc);
            push_refusal_and_element(alloc, &mut line, input, schema, of, &refusal)?;
            Ok(Decoded::Refused(line))
        }
    }
}

/// Decodes a value at the front of octets to a line, and answers what follows it.
fn decode_next<'a>(
    alloc: Global,
    schema: &'a Schema<'_>,
    of: usize,
    by: Decoding,
    input: Input<'a>,
) -> Result<NextLine<'a>, RunError>
    requires { is_sound schema.now.nodes.items ≡ true }
    ensures { IfOk result (DecodesNext by schema.entry.now of input.entry) }
{
    let mut tape = Vec::new(alloc);
    match read_next(schema, of, by.coding, input.octets, &mut tape)? {
        Next::Value(rest) => match value_line(alloc, schema, of, &tape, by.pretty) {
            Ok(text) => Ok(NextLine::Value(text, rest)),
            Err(error) => Err(run_error(error)),
        },
        Next::Refused(refusal) => {
            let mut line = Vec::new(alloc);
            push_refusal_and_element(alloc, &mut line, input, schema, of, &refusal)?;
            Ok(NextLine::Refused(line))
        }
    }
}

/// Writes the values that octets are of, each in a line. Where none begins what is left, what is told of the
/// refusal is answered.
pub fn decode_lines<'a, W: Write>(
    alloc: Global,
    schema: &'a Schema<'_>,
    of: usize,
    by: Decoding,
    input: Input<'a>,
    out: &mut W,
) -> Result<Option<Vec<u8>>, RunError>
    requires { is_sound schema.now.nodes.items ≡ true }
    ensures { IfOk result (λ refused. (shown : List ℕ) ×
        DecodesRow by schema.entry.now of input.entry refused shown ×
        Appends (W.contents out.old) (W.contents out.new) shown) }
{
    let mut left = input;
    while !left.octets.is_empty() {
        match decode_next(alloc, schema, of, by, left)? {
            NextLine::Value(text, rest) => {
                out.write_all(&text)?;
                let len = left.octets.len() - rest.len();
                left = Input {
                    name: input.name,
                    offset: left.offset.saturating_add(len),
                    octets: rest,
                };
            }
            NextLine::Refused(line) => return Ok(Some(line)),
        }
    }
    Ok(None)
}
