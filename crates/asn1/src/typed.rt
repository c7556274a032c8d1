//! Files, by a type of modules.
ghost use Rattle.std.specs.Prelude.{◌≡◌, true};
ghost use Rattle.asn1_schema.specs.Sound.{is_sound};

use crate::files::{Document, documents, read, told};
use crate::modules::{sources, texts};
use crate::words::{TypedCall, TypedTask};
use asn1_engine::outcome::Outcome;
use asn1_engine::{Finding, RunError};
use asn1_typed::labels::type_of_label;
use asn1_typed::standards::standards;
use asn1_typed::{
    Decoded, Decoding, Input as Octets, Source, TypeName, TypeTable, check_typed, decode,
    decode_lines, sound_types, type_named,
};
use std::alloc::Global;
use std::io::{BufWriter, Write};
use std::rt::Files;
use std::{io, str};

/// Prints lines on standard error.
pub fn tell<R: Eprint>(rt: &R, lines: &[u8]) {
    if let Ok(text) = str::from_utf8(lines) {
        let _ = eprint!(rt; "{text}");
    }
}

/// The place of the type of a document: that of the call, or the one that its label says.
fn type_of<R: Eprint + AllocGlobal>(
    rt: &R,
    call: &TypedCall<'_>,
    table: &TypeTable<'_>,
    document: &Document,
) -> Result<Option<usize>, RunError> {
    let mut said = Vec::new(rt.alloc());
    let label = match &document.label {
        None => None,
        Some(label) => type_of_label(label.as_str()),
    };
    let file = document.name.as_str();
    let Some(name) = call.name.or(label) else {
        let _ = eprintln!(rt; "asn1: {file}: no --type says of which type it is, and no label");
        return Ok(None);
    };
    let found = type_named(&mut said, &table.modules.types, &TypeName::of(name))?;
    if found.is_none() {
        let _ = eprint!(rt; "asn1: {file}: ");
        tell(rt, &said);
    }
    Ok(found)
}

/// Writes values as JSON. A refusal is told on standard error.
fn answer_decode<R: Eprint + AllocGlobal, W: Write>(
    rt: &R,
    table: &TypeTable<'_>,
    of: usize,
    by: Decoding,
    octets: Octets<'_>,
    out: &mut W,
) -> Result<Finding, RunError>
    requires { is_sound table.now.schema.nodes.items ≡ true }
{
    match decode(rt.alloc(), &table.schema, of, by, octets)? {
        Decoded::Value(text) => {
            out.write_all(&text)?;
            Ok(Finding::Holds)
        }
        Decoded::Refused(line) => {
            tell(rt, &line);
            Ok(Finding::Refused)
        }
    }
}

/// Writes values in a row as JSON, each in a line. A refusal is told on standard error.
fn answer_lines<R: Eprint + AllocGlobal, W: Write>(
    rt: &R,
    table: &TypeTable<'_>,
    of: usize,
    by: Decoding,
    octets: Octets<'_>,
    out: &mut W,
) -> Result<Finding, RunError>
    requires { is_sound table.now.schema.nodes.items ≡ true }
{
    match decode_lines(rt.alloc(), &table.schema, of, by, octets, out)? {
        None => Ok(Finding::Holds),
        Some(line) => {
            tell(rt, &line);
            Ok(Finding::Refused)
        }
    }
}

/// Writes whether octets are the strict encoding of a value.
fn answer_check<W: Write>(
    alloc: Global,
    table: &TypeTable<'_>,
    of: usize,
    octets: Octets<'_>,
    out: &mut W,
) -> Result<Finding, RunError>
    requires { is_sound table.now.schema.nodes.items ≡ true }
{
    let mut text = Vec::new(alloc);
    let finding = check_typed(alloc, &mut text, &table.schema, of, octets)?;
    out.write_all(&text)?;
    Ok(finding)
}

/// Does the task with a document.
fn answer<R: Eprint + AllocGlobal, W: Write>(
    rt: &R,
    call: &TypedCall<'_>,
    table: &TypeTable<'_>,
    document: &Document,
    out: &mut W,
) -> Result<Outcome, RunError>
    requires { is_sound table.now.schema.nodes.items ≡ true }
{
    let Some(of) = type_of(rt, call, table, document)? else {
        return Ok(Outcome::Unreadable);
    };
    let octets = Octets {
        name: document.name.as_str(),
        offset: 0,
        octets: document.octets.as_slice(),
    };
    let finding = match call.task {
        TypedTask::Decode(by) => answer_decode(rt, table, of, by, octets, out)?,
        TypedTask::DecodeLines(by) => answer_lines(rt, table, of, by, octets, out)?,
        TypedTask::Check => answer_check(rt.alloc(), table, of, octets, out)?,
    };
    Ok(Outcome::Found(finding))
}

/// Does the task with each document of a file. A file that has none is told on standard error.
fn answer_file<R: Files + Input + Eprint + AllocGlobal, W: Write>(
    rt: &R,
    call: &TypedCall<'_>,
    table: &TypeTable<'_>,
    path: &str,
    out: &mut W,
) -> Result<Outcome, RunError>
    requires { is_sound table.now.schema.nodes.items ≡ true }
{
    let octets = match read(rt, path, call.most) {
        Ok(octets) => octets,
        Err(error) => return told(rt, path, &error),
    };
    let found = match documents(rt.alloc(), path, call.form, octets) {
        Ok(found) => found,
        Err(error) => return told(rt, path, &error),
    };
    let mut outcome = Outcome::Found(Finding::Holds);
    for document in &found {
        outcome = outcome.and(answer(rt, call, table, document, out)?);
    }
    Ok(outcome)
}

/// Does the task with each file, by the types of modules. Why these are none is told on standard error.
fn answer_files<R: Files + Input + Print + Eprint + AllocGlobal>(
    rt: &R,
    call: &TypedCall<'_>,
    sources: &[Source<'_>],
    paths: &[&str],
) -> Result<Outcome, RunError> {
    let alloc = rt.alloc();
    let mut said = Vec::new(alloc);
    let Some(table) = sound_types(alloc, sources, &mut said)? else {
        tell(rt, &said);
        return Ok(Outcome::Unreadable);
    };
    let mut out = BufWriter::new(alloc, io::writer(rt)).map_err(|_| RunError::OutOfMemory)?;
    let mut outcome = Outcome::Found(Finding::Holds);
    for path in paths {
        outcome = outcome.and(answer_file(rt, call, &table, path, &mut out)?);
    }
    out.flush()?;
    Ok(outcome)
}

/// Does a task with files by the types of the modules that are named, or of those that are built in.
pub fn answer_typed<R: Files + Input + Print + Eprint + AllocGlobal>(
    rt: &R,
    call: &TypedCall<'_>,
    paths: &[&str],
) -> Result<Outcome, RunError> {
    let alloc = rt.alloc();
    if call.modules.is_empty() {
        return answer_files(rt, call, &standards(alloc)?, paths);
    }
    let Some(found) = texts(rt, call.modules, call.most)? else {
        return Ok(Outcome::Unreadable);
    };
    answer_files(rt, call, &sources(alloc, &found)?, paths)
}
