//! Blocks of PEM: base64 between a line of BEGIN and one of END, with any text around (RFC 7468).
ghost use Rattle.std.specs.Prelude.{◌≡◌, ◌↔◌, ◌+◌, ◌^◌, ◌<◌, ◌≤◌, ◌⊎◌, ◌++◌, List, length, Some, None, IsTrue};
ghost use Rattle.std.specs.Prelude.{IfOk, IfErr, MatchOption, OnOk};
ghost use Rattle.base64.specs.Engines.{standard};
ghost use Rattle.base64.specs.GeneralPurpose.{encode_of};
ghost use Rattle.asn1_engine.specs.Messages.{pem_error_text};
ghost use Rattle.asn1_engine.specs.Pem.{HasBegin, HasBlocks, StandsBetween, IsBlock, IsBoundary, IsEncrypting};
ghost use Rattle.asn1_engine.specs.Pem.{IsMistake};
ghost use Rattle.asn1_engine.specs.Pem.{IsNoBase64, IsNoBoundary, IsNoneBetween, TellsPem, base64_of, begin_front, end_front};
ghost use Rattle.asn1_engine.specs.declared.pem.Block.{Block};
ghost use Rattle.asn1_engine.specs.declared.pem.PemError.TheVariants.{OutOfMemory, NoBase64};

use crate::elements::are_elements;
use crate::lines::Lines;
use base64::DecodeAllocError;
use base64::engine::general_purpose::STANDARD;
use std::alloc::{AllocError, AllocFailed, Global};
use std::fmt;
use x690::sets::{Graphic, all_in, characters_are_octets};

/// A block.
#[derive(Debug, Drop)]
pub struct Block {
    /// The label, of visible characters and spaces.
    pub label: String,
    /// The number of its line of BEGIN, from 1.
    pub line: u64,
    /// What its base64 says.
    pub octets: Vec<u8>,
}

/// Why a text is no PEM. Each tells the number of a line, from 1.
#[derive(Debug, Clone, Copy, PartialEq, Eq)]
pub enum PemError {
    /// The block that begins there has no line of END.
    NoEnd(u64),
    /// The line of END has another label than the block.
    WrongEnd(u64),
    /// What stands between the lines of the block that begins there is no base64.
    NoBase64(u64),
    /// A field of the block that begins there says that it is encrypted (RFC 1421 4.6.1.1).
    Encrypted(u64),
    /// A buffer could not grow.
    OutOfMemory,
}

impl fmt::Display for PemError {
    ghost output = { λ error. Some (pem_error_text error) };

    fn fmt<W: fmt::Write>(&self, f: &mut fmt::Formatter<W>) -> fmt::Result {
        match self {
            PemError::NoEnd(line) => write!(f, "line {line}: the block has no line of END"),
            PemError::WrongEnd(line) => write!(f, "line {line}: END with another label"),
            PemError::NoBase64(line) => write!(f, "line {line}: the block is no base64"),
            PemError::Encrypted(line) => write!(f, "line {line}: the block is encrypted"),
            PemError::OutOfMemory => write!(f, "out of memory"),
        }
    }
}

impl std::error::Error for PemError {}

impl From<AllocError> for PemError {
    ghost from_gives = { λ _ e. e ≡ OutOfMemory };

    fn from(_e: AllocError) -> PemError {
        PemError::OutOfMemory
    }
}

impl<T: Drop> From<AllocFailed<T>> for PemError {
    ghost from_gives = { λ _ e. e ≡ OutOfMemory };

    fn from(_e: AllocFailed<T>) -> PemError {
        PemError::OutOfMemory
    }
}

/// What stands between a front and an end of the line, with any white space behind.
fn between<'a>(line: &'a [u8], front: &[u8], end: &[u8]) -> Option<&'a [u8]>
    ensures { MatchOption result (IsNoneBetween front.now end.now line.now)
        (λ word. StandsBetween front.now word.now end.now line.now) }
{
    let behind = line.trim_ascii_end().strip_prefix(front)?;
    behind.strip_suffix(end)
}

/// The label of a line that begins so and ends in five dashes, with any white space behind.
fn label_of<'a>(line: &'a [u8], front: &[u8]) -> Option<&'a str>
    ensures { MatchOption result (IsNoBoundary front.now line.now)
        (λ label. IsBoundary front.now label.now line.now) }
{
    let label = between(line, front, b"-----")?;
    if !all_in::<Graphic>(label) {
        return None;
    }
    characters_are_octets::<Graphic>();
    str::from_utf8(label).ok()
}

/// The label of a line of BEGIN.
fn begin_label(line: &[u8]) -> Option<&str>
    ensures { MatchOption result (IsNoBoundary begin_front line.now)
        (λ label. IsBoundary begin_front label.now line.now) }
{
    label_of(line, b"-----BEGIN ")
}

/// The label of a line of END.
fn end_label(line: &[u8]) -> Option<&str>
    ensures { MatchOption result (IsNoBoundary end_front line.now)
        (λ label. IsBoundary end_front label.now line.now) }
{
    label_of(line, b"-----END ")
}

/// Whether the line is a field that says that the block is encrypted.
fn is_encrypting(line: &[u8]) -> bool
    ensures { IsTrue result ↔ IsEncrypting line.now }
{
    between(line, b"Proc-Type:", b"ENCRYPTED").is_some()
}

/// Whether a line of the text is one of BEGIN.
fn has_begin(text: &[u8]) -> bool
    ensures { IsTrue result ↔ HasBegin text.now }
{
    let mut lines = Lines::new(text);
    while let Some(line) = lines.next_line() {
        if begin_label(line).is_some() {
            return true;
        }
    }
    false
}

/// Whether the octets are taken for PEM: a line is one of BEGIN, and they are no elements as they stand.
pub fn is_pem(alloc: Global, octets: &[u8]) -> Result<bool, AllocError>
    ensures { IfOk result (TellsPem octets.now) }
{
    if !has_begin(octets) {
        return Ok(false);
    }
    Ok(!are_elements(alloc, octets)?)
}

/// Appends the base64 of a line, without white space. A line with a colon is a field and not base64 (RFC 1421).
fn push_base64(base64: &mut Vec<u8>, line: &[u8]) -> Result<(), AllocError>
    ensures { OnOk result (base64.new.items ≡ base64.old.items ++ base64_of line.now) }
{
    if line.contains(&b':') {
        return Ok(());
    }
    for octet in line {
        if !octet.is_ascii_whitespace() {
            base64.push(*octet)?;
        }
    }
    Ok(())
}

/// The octets that a base64 says. Else the line of the block is told.
fn octets_of(alloc: Global, base64: &[u8], line: u64) -> Result<Vec<u8>, PemError>
    ensures ok { IfOk result (λ octets. base64.now ≡ encode_of standard octets.items) }
    ensures err { IfErr result (λ e. (e ≡ OutOfMemory) ⊎ ((e ≡ NoBase64 line) × IsNoBase64 base64.now)) }
{
    match STANDARD.decode(alloc, base64) {
        Ok(octets) => Ok(octets),
        Err(DecodeAllocError::OutOfMemory) => Err(PemError::OutOfMemory),
        Err(_) => Err(PemError::NoBase64(line)),
    }
}

/// The block of a label whose line of BEGIN was taken.
fn read_block(alloc: Global, lines: &mut Lines<'_>, label: &str) -> Result<Block, PemError>
    requires { lines.old.taken + length lines.old.rest.now < 2 ^ 64 }
    ensures ok { IfOk result (λ block.
        IsBlock lines.old.taken label.now lines.old.rest.now block lines.new.rest.now lines.new.taken) }
    ensures err { IfErr result (λ e.
        (e ≡ OutOfMemory) ⊎ IsMistake lines.old.taken label.now lines.old.rest.now e) }
    ensures room { OnOk result (lines.new.taken + length lines.new.rest.now < 2 ^ 64) }
    ensures fewer { OnOk result (length lines.new.rest.now ≤ length lines.old.rest.now) }
{
    let begun = lines.taken;
    let mut base64 = Vec::new(alloc);
    while let Some(line) = lines.next_line() {
        if is_encrypting(line) {
            return Err(PemError::Encrypted(begun));
        }
        match end_label(line) {
            None => push_base64(&mut base64, line)?,
            Some(other) if other == label => {
                return Ok(Block {
                    label: String::from_str(alloc, label)?,
                    line: begun,
                    octets: octets_of(alloc, base64.as_slice(), begun)?,
                });
            }
            Some(_) => return Err(PemError::WrongEnd(lines.taken)),
        }
    }
    Err(PemError::NoEnd(begun))
}

/// All blocks of the text, in their order; else the first mistake.
pub fn blocks(alloc: Global, text: &[u8]) -> Result<Vec<Block>, PemError>
    ensures ok { IfOk result (λ blocks. HasBlocks 0 text.now blocks.items None) }
    ensures err { IfErr result (λ e.
        (e ≡ OutOfMemory) ⊎ ((blocks : List Block) × HasBlocks 0 text.now blocks (Some e))) }
{
    let mut closed = Vec::new(alloc);
    let mut lines = Lines::new(text);
    while let Some(line) = lines.next_line() {
        if let Some(label) = begin_label(line) {
            closed.push(read_block(alloc, &mut lines, label)?)?;
        }
    }
    Ok(closed)
}
