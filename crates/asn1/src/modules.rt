//! Files of modules.

use crate::files::{Document, read, told};
use asn1_engine::RunError;
use asn1_engine::outcome::Outcome;
use asn1_typed::standards::standards;
use asn1_typed::{Source, normal_form, types};
use std::alloc::{AllocError, Global};
use std::io;
use std::io::{BufWriter, Write};
use std::rt::Files;

/// The texts of files, or none where one can't be read, which is told on standard error.
pub fn texts<R: Files + Input + Eprint + AllocGlobal>(
    rt: &R,
    paths: &[&str],
    most: u64,
) -> Result<Option<Vec<Document>>, RunError> {
    let alloc = rt.alloc();
    let mut found = Vec::new(alloc);
    for path in paths {
        match read(rt, path, most) {
            Ok(octets) => {
                let name = String::from_str(alloc, path)?;
                let label = None;
                found.push(Document {
                    name,
                    label,
                    octets,
                })?;
            }
            Err(error) => {
                told(rt, path, &error)?;
                return Ok(None);
            }
        }
    }
    Ok(Some(found))
}

/// The texts with their names.
pub fn sources<'a>(
    alloc: Global,
    documents: &'a [Document],
) -> Result<Vec<Source<'a>>, AllocError> {
    let mut sources = Vec::new(alloc);
    for document in documents {
        sources.push(Source {
            name: document.name.as_str(),
            text: document.octets.as_slice(),
        })?;
    }
    Ok(sources)
}

/// Prints the types of modules, or the modules in their normal form.
fn list<R: Print + AllocGlobal>(
    rt: &R,
    is_normal: bool,
    sources: &[Source<'_>],
) -> Result<Outcome, RunError> {
    let alloc = rt.alloc();
    let mut out = BufWriter::new(alloc, io::writer(rt)).map_err(|_| RunError::OutOfMemory)?;
    let finding = if is_normal {
        normal_form(alloc, sources, &mut out)?
    } else {
        types(alloc, sources, &mut out)?
    };
    out.flush()?;
    Ok(Outcome::Found(finding))
}

/// Prints the types of the modules of files, or of those that are built in where no file is named; or the modules in
/// their normal form.
pub fn answer_types<R: Files + Input + Print + Eprint + AllocGlobal>(
    rt: &R,
    is_normal: bool,
    paths: &[&str],
    most: u64,
) -> Result<Outcome, RunError> {
    let alloc = rt.alloc();
    if paths.is_empty() {
        return list(rt, is_normal, &standards(alloc)?);
    }
    let Some(found) = texts(rt, paths, most)? else {
        return Ok(Outcome::Unreadable);
    };
    list(rt, is_normal, &sources(alloc, &found)?)
}
