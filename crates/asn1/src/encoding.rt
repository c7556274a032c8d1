//! A file of JSON as octets, by a type of modules.
ghost use Rattle.std.specs.Prelude.{◌≡◌, true, IfOk, IfSome};
ghost use Rattle.asn1_schema.specs.Sound.{is_sound};

use crate::files::{FileError, read, told};
use crate::modules::{sources, texts};
use crate::pem::{block, is_label};
use crate::typed::tell;
use crate::words::EncodeCall;
use asn1_engine::outcome::Outcome;
use asn1_engine::{Finding, RunError};
use asn1_typed::standards::standards;
use asn1_typed::{
    Encoded, Input as Text, Source, TypeName, TypeTable, encode, sound_types, type_named,
};
use std::alloc::Global;
use std::io::{BufWriter, Write};
use std::rt::Files;
use std::{fs, io};

/// The table of the types of modules, and the place of the type. None comes where there is none: why is told on
/// standard error.
fn type_of<'t, R: Eprint + AllocGlobal>(
    rt: &R,
    call: &EncodeCall<'_>,
    sources: &[Source<'t>],
) -> Result<Option<(TypeTable<'t>, usize)>, RunError>
    ensures { IfOk result (λ found. IfSome found (λ x. is_sound x.0.schema.nodes.items ≡ true)) }
{
    let alloc = rt.alloc();
    let mut said = Vec::new(alloc);
    let Some(table) = sound_types(alloc, sources, &mut said)? else {
        tell(rt, &said);
        return Ok(None);
    };
    match type_named(&mut said, &table.modules.types, &TypeName::of(call.name))? {
        Some(of) => Ok(Some((table, of))),
        None => {
            let _ = eprint!(rt; "asn1: ");
            tell(rt, &said);
            Ok(None)
        }
    }
}

/// Octets as they are written: as they stand, or as a block of PEM.
fn dressed(alloc: Global, label: Option<&str>, octets: Vec<u8>) -> Result<Vec<u8>, RunError> {
    match label {
        None => Ok(octets),
        Some(label) => {
            let text = block(alloc, label, &octets)?;
            Ok(text)
        }
    }
}

/// Writes octets to the file of the call, or to standard output.
fn write<R: Files + Print + Eprint + AllocGlobal>(
    rt: &R,
    call: &EncodeCall<'_>,
    octets: &[u8],
) -> Result<Outcome, RunError> {
    if let Some(path) = call.output {
        return match fs::write(rt, path, octets) {
            Ok(()) => Ok(Outcome::Found(Finding::Holds)),
            Err(error) => told(rt, path, &FileError::Unreadable(error)),
        };
    }
    let mut out = BufWriter::new(rt.alloc(), io::writer(rt)).map_err(|_| RunError::OutOfMemory)?;
    out.write_all(octets)?;
    out.flush()?;
    Ok(Outcome::Found(Finding::Holds))
}

/// Encodes the file of JSON by the types of modules. A refusal is told on standard error, and nothing is written.
fn answer<R: Files + Input + Print + Eprint + AllocGlobal>(
    rt: &R,
    call: &EncodeCall<'_>,
    sources: &[Source<'_>],
) -> Result<Outcome, RunError> {
    let alloc = rt.alloc();
    let Some((table, of)) = type_of(rt, call, sources)? else {
        return Ok(Outcome::Unreadable);
    };
    let text = match read(rt, call.file, call.most) {
        Ok(text) => text,
        Err(error) => return told(rt, call.file, &error),
    };
    let input = Text {
        name: call.file,
        offset: 0,
        octets: text.as_slice(),
    };
    match encode(alloc, &table.schema, of, input)? {
        Encoded::Value(octets) => write(rt, call, &dressed(alloc, call.label, octets)?),
        Encoded::Refused(line) => {
            tell(rt, &line);
            Ok(Outcome::Found(Finding::Refused))
        }
    }
}

/// Encodes a file of JSON by a type of the modules that are named, or of those that are built in.
pub fn answer_encode<R: Files + Input + Print + Eprint + AllocGlobal>(
    rt: &R,
    call: &EncodeCall<'_>,
) -> Result<Outcome, RunError> {
    let alloc = rt.alloc();
    if let Some(label) = call.label {
        if !is_label(label) {
            let _ = eprintln!(rt; "asn1: {label}: no label of PEM");
            return Ok(Outcome::Unreadable);
        }
    }
    if call.modules.is_empty() {
        return answer(rt, call, &standards(alloc)?);
    }
    let Some(found) = texts(rt, call.modules, call.most)? else {
        return Ok(Outcome::Unreadable);
    };
    answer(rt, call, &sources(alloc, &found)?)
}
