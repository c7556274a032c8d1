//! Values of the types of a table, written by DER: each as its one strict encoding.
ghost use Rattle.std.specs.Prelude.{ℕ, [], ◌≡◌, ◌≢◌, ◌⊎◌, true, Ok, Err, OnOk, OnErr, IfOk, IsErrOf};
ghost use Rattle.asn1_headers.specs.declared.error.SerializeError.{SerializeError};
ghost use Rattle.asn1_schema.specs.declared.encode.EncodeError.TheVariants as errors;
ghost use Rattle.asn1_schema.specs.declared.encode.WriteError.TheVariants as write_errors;
ghost use Rattle.asn1_schema.specs.declared.fault.Fault.TheVariants as faults;
ghost use Rattle.asn1_schema.specs.Grammar.{Word};
ghost use Rattle.asn1_schema.specs.Rules.{strict};
ghost use Rattle.asn1_schema.specs.Sound.{is_sound};
ghost use Rattle.asn1_schema.specs.Encoding.{Encodes, EncodesTo, IsOfNoWord};

use crate::fault::Fault;
use crate::schema::Node;
use crate::tape::Item;
use crate::writing::put_value;
use asn1_headers::buffer::{DerBuffer, keep_last};
use asn1_headers::error::SerializeError;
use asn1_headers::writer::{DerWrite, put_all};
use std::alloc::{AllocError, Global};

/// Why a tape is not written.
#[derive(Debug, Clone, Copy, PartialEq, Eq, thiserror::Error)]
pub enum EncodeError {
    /// Memory ran out.
    #[error("out of memory")]
    OutOfMemory,
    /// The tape is that of no value of the type that has a strict encoding.
    #[error("the tape has no value of the type with a strict encoding")]
    Refused,
}

/// The answer where writing stopped.
fn error_of(fault: Fault) -> EncodeError
    ensures { result ≡ errors.Refused → fault ≢ faults.Memory }
{
    match fault {
        Fault::Memory => EncodeError::OutOfMemory,
        Fault::Refused => EncodeError::Refused,
        Fault::TooDeep => EncodeError::Refused,
    }
}

/// Puts the one strict encoding (X.690 10, 11) of a value in front of the octets of a buffer. The tape holds the value,
/// which is one of a type of a sound table, and nothing else.
///
/// `of` is the place of the type in the table. Elements may nest `depth` deep, and one that has no others within has
/// depth 1. Strings in pieces are joined, and what is a default is left out (11.5).
///
/// `Refused` says that the tape is that of no value of the type with a strict encoding. None has
/// - a set-of whose members do not ascend (11.6);
/// - bits with names that end in zeros (11.2.2);
/// - a time that is not in its strict form (11.7, 11.8);
/// - an element of any type with a header within that is not strict (10.1).
///
/// After an `Err` the buffer is as it was.
pub fn encode_der(
    table: &[Node],
    of: usize,
    depth: usize,
    tape: &[Item<'_>],
    buf: &mut DerBuffer,
) -> Result<(), EncodeError>
    requires { is_sound table.now ≡ true }
    ensures ok { OnOk result
        (Encodes (Word strict table.now depth of) tape.now buf.old buf.new) }
    ensures refused { IsErrOf result errors.Refused →
        IsOfNoWord (Word strict table.now depth of) tape.now }
    ensures unchanged { OnErr result (buf.new ≡ buf.old) }
{
    let held = buf.len();
    match put_value(table, depth, of, tape, tape.len(), buf) {
        Ok(rest) => {
            if rest == 0 {
                return Ok(());
            }
            keep_last(buf, held);
            Err(EncodeError::Refused)
        }
        Err(fault) => {
            keep_last(buf, held);
            Err(error_of(fault))
        }
    }
}

/// The octets in a vector of their own.
fn copied(alloc: Global, octets: &[u8]) -> Result<Vec<u8>, AllocError>
    ensures { IfOk result (λ v. v.items ≡ octets.now) }
{
    let mut copy = Vec::new(alloc);
    copy.extend_from_slice(octets)?;
    Ok(copy)
}

/// The one strict encoding of a value of a type of a sound table, as [`encode_der`] puts it in front of no octets.
pub fn encode_der_vec(
    alloc: Global,
    table: &[Node],
    of: usize,
    depth: usize,
    tape: &[Item<'_>],
) -> Result<Vec<u8>, EncodeError>
    requires { is_sound table.now ≡ true }
    ensures ok { IfOk result
        (λ v. Encodes (Word strict table.now depth of) tape.now [] v.items) }
    ensures refused { IsErrOf result errors.Refused →
        IsOfNoWord (Word strict table.now depth of) tape.now }
{
    let mut buf = DerBuffer::new(alloc);
    match encode_der(table, of, depth, tape, &mut buf) {
        Ok(()) => match copied(alloc, buf.as_bytes()) {
            Ok(octets) => Ok(octets),
            Err(_) => Err(EncodeError::OutOfMemory),
        },
        Err(error) => Err(error),
    }
}

/// Why a tape is not written to a writer.
#[derive(Debug, Drop, thiserror::Error)]
pub enum WriteError {
    /// Memory ran out.
    #[error("out of memory")]
    OutOfMemory,
    /// The tape is that of no value of the type that has a strict encoding.
    #[error("the tape has no value of the type with a strict encoding")]
    Refused,
    /// The writer failed, and this is what it says.
    #[error("{0}")]
    Writer(SerializeError),
}

/// Appends the one strict encoding of a value of a type of a sound table to a writer, and answers its length.
///
/// The octets are those that [`encode_der`] puts in front of none. They are made before the writer is called. So a
/// writer that fails may hold a beginning of them, and after each other `Err` it is as it was.
pub fn encode_der_to<W: DerWrite>(
    alloc: Global,
    table: &[Node],
    of: usize,
    depth: usize,
    tape: &[Item<'_>],
    w: &mut W,
) -> Result<usize, WriteError>
    requires { is_sound table.now ≡ true }
    ensures ok { (n : ℕ) → result ≡ Ok n →
        EncodesTo (Word strict table.now depth of) tape.now (W.state w.old) (W.state w.new)
        (Ok n) }
    ensures failed { (e : SerializeError) → result ≡ Err (write_errors.Writer e) →
        EncodesTo (Word strict table.now depth of) tape.now (W.state w.old) (W.state w.new)
        (Err e) }
    ensures refused { IsErrOf result write_errors.Refused →
        IsOfNoWord (Word strict table.now depth of) tape.now }
    ensures unchanged { (IsErrOf result write_errors.Refused) ⊎
        (IsErrOf result write_errors.OutOfMemory) → w.new ≡ w.old }
{
    let mut buf = DerBuffer::new(alloc);
    match encode_der(table, of, depth, tape, &mut buf) {
        Ok(()) => match put_all(w, buf.as_bytes()) {
            Ok(n) => Ok(n),
            Err(e) => Err(WriteError::Writer(e)),
        },
        Err(EncodeError::OutOfMemory) => Err(WriteError::OutOfMemory),
        Err(EncodeError::Refused) => Err(WriteError::Refused),
    }
}
