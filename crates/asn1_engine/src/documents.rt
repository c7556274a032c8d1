//! Documents: the octets that a file holds, by the form that it is read in.
ghost use Rattle.std.specs.Prelude.{◌≡◌, ◌⊎◌, Some, map, IfOk, IfErr};
ghost use Rattle.asn1_engine.specs.Documents.{Holds, HoldsBlocks, HoldsBy, HoldsOne, IsBase64, IsSpacedHexadecimal};
ghost use Rattle.asn1_engine.specs.Documents.{LacksDocument};
ghost use Rattle.asn1_engine.specs.Documents.{LacksBase64, LacksBlocks, LacksBy, LacksHexadecimal, error_of, said_of};
ghost use Rattle.asn1_engine.specs.Documents.{said_of_block};
ghost use Rattle.asn1_engine.specs.Messages.{document_error_text};
ghost use Rattle.asn1_engine.specs.Pem.{seen_of};
ghost use Rattle.asn1_engine.specs.declared.documents.DocumentError.TheVariants.{OutOfMemory};
ghost use Rattle.asn1_engine.specs.declared.documents.Form.TheVariants.{Told};

use crate::pem::{Block, PemError, blocks, is_pem};
use base64::DecodeAllocError;
use base64::engine::general_purpose::STANDARD;
use hex::FromHexError;
use std::alloc::{AllocError, AllocFailed, Global};
use std::fmt;

/// How a file holds octets.
#[derive(Debug, Clone, Copy, PartialEq, Eq)]
pub enum Form {
    /// As PEM where a line begins a block and the octets are no elements as they stand, else as they are.
    Told,
    /// As they are.
    Octets,
    /// In blocks of PEM.
    Pem,
    /// In hexadecimal, with any white space.
    Hexadecimal,
    /// In base64, with any white space.
    Base64,
}

/// Octets with a name.
#[derive(Debug, Drop)]
pub struct Document {
    /// The file's name, and of a block of PEM the label and the line too.
    pub name: String,
    /// The label of a block of PEM.
    pub label: Option<String>,
    /// What is in it.
    pub octets: Vec<u8>,
}

/// Why a file holds no documents.
#[derive(Debug, Clone, Copy, PartialEq, Eq)]
pub enum DocumentError {
    /// It has no octets.
    Empty,
    /// Its text is no PEM.
    Pem(PemError),
    /// It has no block of PEM.
    NoBlock,
    /// Its text is no hexadecimal.
    NoHexadecimal,
    /// Its text is no base64.
    NoBase64,
    /// A buffer could not grow.
    OutOfMemory,
}

impl fmt::Display for DocumentError {
    ghost output = { λ error. Some (document_error_text error) };

    fn fmt<W: fmt::Write>(&self, f: &mut fmt::Formatter<W>) -> fmt::Result {
        match self {
            DocumentError::Empty => write!(f, "the file is empty"),
            DocumentError::Pem(error) => write!(f, "{error}"),
            DocumentError::NoBlock => write!(f, "no block of PEM"),
            DocumentError::NoHexadecimal => write!(f, "no hexadecimal"),
            DocumentError::NoBase64 => write!(f, "no base64"),
            DocumentError::OutOfMemory => write!(f, "out of memory"),
        }
    }
}

impl std::error::Error for DocumentError {}

impl From<AllocError> for DocumentError {
    ghost from_gives = { λ _ e. e ≡ OutOfMemory };

    fn from(_e: AllocError) -> DocumentError {
        DocumentError::OutOfMemory
    }
}

impl<T: Drop> From<AllocFailed<T>> for DocumentError {
    ghost from_gives = { λ _ e. e ≡ OutOfMemory };

    fn from(_e: AllocFailed<T>) -> DocumentError {
        DocumentError::OutOfMemory
    }
}

impl From<PemError> for DocumentError {
    ghost from_gives = { λ error e. e ≡ error_of error };

    fn from(error: PemError) -> DocumentError {
        match error {
            PemError::OutOfMemory => DocumentError::OutOfMemory,
            other => DocumentError::Pem(other),
        }
    }
}

/// Leaves the white space of a text out.
fn drop_space(text: &mut Vec<u8>)
    ensures { text.new.items ≡ seen_of text.old.items }
{
    text.retain(|octet| !octet.is_ascii_whitespace());
}

/// What hexadecimal says.
fn of_hexadecimal(alloc: Global, mut text: Vec<u8>) -> Result<Vec<u8>, DocumentError>
    ensures ok { IfOk result (λ octets. IsSpacedHexadecimal text.items octets.items) }
    ensures err { IfErr result (λ e. (e ≡ OutOfMemory) ⊎ LacksHexadecimal text.items e) }
{
    drop_space(&mut text);
    match hex::decode(alloc, text.as_slice()) {
        Ok(octets) => Ok(octets),
        Err(FromHexError::OutOfMemory) => Err(DocumentError::OutOfMemory),
        Err(_) => Err(DocumentError::NoHexadecimal),
    }
}

/// What base64 says.
fn of_base64(alloc: Global, mut text: Vec<u8>) -> Result<Vec<u8>, DocumentError>
    ensures ok { IfOk result (λ octets. IsBase64 text.items octets.items) }
    ensures err { IfErr result (λ e. (e ≡ OutOfMemory) ⊎ LacksBase64 text.items e) }
{
    drop_space(&mut text);
    match STANDARD.decode(alloc, text.as_slice()) {
        Ok(octets) => Ok(octets),
        Err(DecodeAllocError::OutOfMemory) => Err(DocumentError::OutOfMemory),
        Err(_) => Err(DocumentError::NoBase64),
    }
}

/// The document of a block.
fn document_of(alloc: Global, name: &str, block: Block) -> Result<Document, AllocError>
    ensures { IfOk result (λ document. said_of document ≡ said_of_block name.now block) }
{
    let label = block.label.as_str();
    let line = block.line;
    let name = format!(in alloc; "{name}: {label} in line {line}")?;
    Ok(Document {
        name,
        label: Some(block.label),
        octets: block.octets,
    })
}

/// The document of each block, in their order.
fn documents_of(alloc: Global, name: &str, blocks: Vec<Block>) -> Result<Vec<Document>, AllocError>
    ensures { IfOk result (λ found. map said_of found.items ≡ map (said_of_block name.now) blocks.items) }
{
    let mut found = Vec::new(alloc);
    for block in blocks {
        found.push(document_of(alloc, name, block)?)?;
    }
    Ok(found)
}

/// What the blocks of PEM in a text say.
fn of_pem(alloc: Global, name: &str, text: &[u8]) -> Result<Vec<Document>, DocumentError>
    ensures ok { IfOk result (λ found. HoldsBlocks name.now text.now found.items) }
    ensures err { IfErr result (λ e. (e ≡ OutOfMemory) ⊎ LacksBlocks text.now e) }
{
    let blocks = blocks(alloc, text)?;
    if blocks.is_empty() {
        return Err(DocumentError::NoBlock);
    }
    Ok(documents_of(alloc, name, blocks)?)
}

/// The one document of a file.
fn alone(alloc: Global, name: &str, octets: Vec<u8>) -> Result<Vec<Document>, AllocError>
    ensures { IfOk result (λ found. HoldsOne name.now octets.items found.items) }
{
    let mut found = Vec::new(alloc);
    found.push(Document {
        name: String::from_str(alloc, name)?,
        label: None,
        octets,
    })?;
    Ok(found)
}

/// The documents of a file that may hold PEM or octets as they are.
fn of_told(alloc: Global, name: &str, octets: Vec<u8>) -> Result<Vec<Document>, DocumentError>
    ensures ok { IfOk result (λ found. HoldsBy Told name.now octets.items found.items) }
    ensures err { IfErr result (λ e. (e ≡ OutOfMemory) ⊎ LacksBy Told octets.items e) }
{
    if is_pem(alloc, octets.as_slice())? {
        return of_pem(alloc, name, octets.as_slice());
    }
    Ok(alone(alloc, name, octets)?)
}

/// The documents of a file. An empty file is refused in each form.
pub fn documents(
    alloc: Global,
    name: &str,
    form: Form,
    octets: Vec<u8>,
) -> Result<Vec<Document>, DocumentError>
    ensures ok { IfOk result (λ found. Holds form name.now octets.items found.items) }
    ensures err { IfErr result (λ e. (e ≡ OutOfMemory) ⊎ LacksDocument form octets.items e) }
{
    if octets.is_empty() {
        return Err(DocumentError::Empty);
    }
    match form {
        Form::Told => of_told(alloc, name, octets),
        Form::Octets => Ok(alone(alloc, name, octets)?),
        Form::Pem => of_pem(alloc, name, octets.as_slice()),
        Form::Hexadecimal => Ok(alone(alloc, name, of_hexadecimal(alloc, octets)?)?),
        Form::Base64 => Ok(alone(alloc, name, of_base64(alloc, octets)?)?),
    }
}
