//! Where in a text a part of JSON stands, and the names that lead to it.
ghost use Rattle.std.specs.Prelude.{◌≤◌, length, IfOk};

use crate::reading::names::field_name;
use crate::reading::trail::{Step, Trail};
use crate::types::Types;
use asn1_words::words::{push_number, push_str};
use json::{MAX_DEPTH, Reader, Scratch, Value};
use std::alloc::{AllocError, Global};

/// Passes so many values of an array.
fn pass_items(reader: &mut Reader<'_>, count: usize) {
    for _ in 0..count {
        if reader.skip_value(MAX_DEPTH).is_err() {
            return;
        }
    }
}

/// Passes so many members of an object.
fn pass_members(reader: &mut Reader<'_>, count: usize) {
    for _ in 0..count {
        if reader.next_key().is_err() {
            return;
        }
        if reader.skip_value(MAX_DEPTH).is_err() {
            return;
        }
    }
}

/// Takes a step into the array or the object that begins where the reader stands.
fn take(reader: &mut Reader<'_>, step: Step) {
    let _ = reader.next();
    match step {
        Step::Item(place) => pass_items(reader, place),
        Step::Member(place) => {
            pass_members(reader, place);
            let _ = reader.next_key();
        }
        Step::Name(place) => pass_members(reader, place),
    }
}

/// The octet at which the part begins that steps lead to.
pub(super) fn octet_of(alloc: Global, text: &str, steps: &[Step]) -> Result<usize, AllocError>
    ensures { IfOk result (λ octet. octet ≤ length text.now) }
{
    let mut scratch = Scratch::new(alloc);
    let mut reader = Reader::new(text, &mut scratch)?;
    for step in steps {
        take(&mut reader, *step);
    }
    Ok(reader.offset().min(text.len()))
}

/// The octet at which a text is no longer JSON, or behind what stands there.
pub(super) fn octet_of_fault(alloc: Global, text: &str) -> Result<usize, AllocError>
    ensures { IfOk result (λ octet. octet ≤ length text.now) }
{
    let mut scratch = Scratch::new(alloc);
    let mut reader = Reader::new(text, &mut scratch)?;
    let _ = reader.skip_value(MAX_DEPTH);
    Ok(reader.offset().min(text.len()))
}

/// Appends a name, behind a point where others stand before it.
fn push_name(path: &mut Vec<u8>, name: &str) -> Result<(), AllocError> {
    if !path.is_empty() {
        push_str(path, ".")?;
    }
    push_str(path, name)
}

/// Appends the place of an item in brackets.
fn push_place(path: &mut Vec<u8>, place: usize) -> Result<(), AllocError> {
    push_str(path, "[")?;
    push_number(path, place as u64)?;
    push_str(path, "]")
}

/// Appends what a step leads to, and answers it. The name of no part is not appended.
fn follow<'v, 'a>(
    path: &mut Vec<u8>,
    value: &'v Value<'a>,
    step: Step,
) -> Result<&'v Value<'a>, AllocError> {
    match (value, step) {
        (Value::Array(items), Step::Item(place)) => {
            push_place(path, place)?;
            Ok(items.get(place).unwrap_or(value))
        }
        (Value::Object(members), Step::Member(place)) => match members.get(place) {
            Some(member) => {
                push_name(path, member.0)?;
                Ok(&member.1)
            }
            None => Ok(value),
        },
        _ => Ok(value),
    }
}

/// Appends the names that steps lead by.
fn push_steps(path: &mut Vec<u8>, value: &Value<'_>, steps: &[Step]) -> Result<(), AllocError> {
    let [step, others @ ..] = steps else {
        return Ok(());
    };
    let part = follow(path, value, *step)?;
    push_steps(path, part, others)
}

/// The names that lead to what is refused, with points between them; the places of items stand in brackets, from 0.
pub(super) fn path_of(
    alloc: Global,
    types: Types<'_, '_>,
    value: &Value<'_>,
    trail: &Trail,
) -> Result<Vec<u8>, AllocError> {
    let mut path = Vec::new(alloc);
    push_steps(&mut path, value, &trail.steps)?;
    if let Some((row, place)) = trail.missing {
        let name = field_name(alloc, types, row, place)?;
        push_name(&mut path, name.as_str())?;
    }
    Ok(path)
}
