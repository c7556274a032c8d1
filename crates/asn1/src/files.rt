//! Files, and the documents that they hold.
ghost use Rattle.std.specs.Prelude.{◌≤◌, IfOk, length};

pub use asn1_engine::documents::{Document, DocumentError, Form};
use asn1_engine::outcome::Outcome;
use asn1_engine::{Finding, RunError, documents as held};
use std::alloc::Global;
use std::io::Read;
use std::rt::Files;
use std::{fmt, fs, io};

/// Why a file has no octets to look at.
#[derive(Debug, Drop)]
pub enum FileError {
    /// It can't be read.
    Unreadable(io::Error),
    /// It has more octets than may be read.
    TooLong(u64),
    /// It holds no documents.
    Document(DocumentError),
}

impl fmt::Display for FileError {
    fn fmt<W: fmt::Write>(&self, f: &mut fmt::Formatter<W>) -> fmt::Result {
        match self {
            FileError::Unreadable(error) => write!(f, "{error}"),
            FileError::TooLong(most) => write!(f, "more than {most} octets"),
            FileError::Document(error) => write!(f, "{error}"),
        }
    }
}

impl std::error::Error for FileError {}

impl From<io::Error> for FileError {
    fn from(e: io::Error) -> FileError {
        FileError::Unreadable(e)
    }
}

impl From<DocumentError> for FileError {
    fn from(e: DocumentError) -> FileError {
        FileError::Document(e)
    }
}

/// How a call ends with a file that has no octets to look at, which is told on standard error.
pub fn told<R: Eprint>(rt: &R, path: &str, error: &FileError) -> Result<Outcome, RunError> {
    let outcome = match error {
        FileError::Unreadable(_) | FileError::TooLong(_) => Outcome::Unreadable,
        FileError::Document(DocumentError::OutOfMemory) => return Err(RunError::OutOfMemory),
        _ => Outcome::Found(Finding::Refused),
    };
    let _ = eprintln!(rt; "asn1: {path}: {error}");
    Ok(outcome)
}

/// All that a file has, or standard input for `-`.
pub fn read<R: Files + Input + AllocGlobal>(
    rt: &R,
    path: &str,
    most: u64,
) -> Result<Vec<u8>, FileError>
    ensures { IfOk result (λ octets. length octets.items ≤ most) }
{
    let mut octets = Vec::new(rt.alloc());
    let limit = most.saturating_add(1);
    if path == "-" {
        rt.reader().take(limit).read_to_end(&mut octets)?;
    } else {
        fs::open(rt, path)?.take(limit).read_to_end(&mut octets)?;
    }
    if octets.len() as u64 > most {
        return Err(FileError::TooLong(most));
    }
    Ok(octets)
}

/// The documents of a file.
pub fn documents(
    alloc: Global,
    path: &str,
    form: Form,
    octets: Vec<u8>,
) -> Result<Vec<Document>, FileError> {
    Ok(held::documents(alloc, path, form, octets)?)
}
