//! Writers that tell what they took and whether they failed.
ghost use Rattle.std.specs.Prelude.{◌≡◌, ◌≢◌, [], ◌||◌, false, IsTrue, IsErr, IfOk, IfErr, None, Ok};
ghost use Rattle.std.specs.Io.{WritesAtMost};
ghost use Rattle.std.specs.Io.KnownBytes.{WriteAppends};
ghost use Rattle.asn1_headers.specs.Writer.{WriterState, wrapped_in, mark_of, put_fails, Wrote, MayRefuse, Calls};
ghost use Rattle.asn1_headers.specs.Writer.{ToldPut, PutOnce, PutRefused, PutInCalls, SumsWritten};

use crate::error::{SerializeError, SerializeResult};
use std::io;
use std::io::{ErrorKind, Write};

/// A std writer whose calls of `write` are told one by one. Every std writer is one.
///
/// Contracts of [`Told`] speak of its calls through this trait. Those of std's `Write` say of a call only how many
/// octets were taken, and which.
// Under the bound `Write` no clause can say that a call was made once, with these octets, and that its failure is the
// one answered. The smallest call with no such clause is the one line of `write_once` in the impl. Nobody can write an
// impl of this trait, so it is not exported.
pub trait TellsWrites: Write {
    /// What a call of `write` may come to.
    ghost writes: { Calls Self };

    /// Calls `write` once, and answers what it does.
    fn write_once(&mut self, octets: &[u8]) -> io::Result<usize>
        ensures call { writes self.old octets.now result self.new }
        ensures bound { WritesAtMost result octets.now }
        ensures bytes { WriteAppends (Self.contents self.old)
            (Self.contents self.new) result octets.now };
}

impl<W: Write> TellsWrites for W {
    ghost writes = { λ old octets answer new.
        WritesAtMost answer octets × WriteAppends (W.contents old) (W.contents new) answer octets };

    #[inline(always)]
    fn write_once(&mut self, octets: &[u8]) -> io::Result<usize> {
        self.write(octets)
    }
}

/// Takes octets, and keeps a mark once it has failed.
///
/// Contracts see the octets that it holds, where it tells them, and the mark.
pub trait DerWrite {
    /// The octets that it holds, where it tells them, and whether it has failed. It has where a `put` was refused, or
    /// took no octet of a piece that has some.
    ghost state: { Self → WriterState };

    /// What a call of `put` may come to. A writer that leaves it out claims nothing of which answer a call has.
    // `put` alone ensures it. A clause that spoke of some call, and of some writer before it, would hold of any refusal
    // once the writer is marked.
    ghost puts: { Calls Self } = { λ _ _ _ _. Unit {0} };

    /// Takes a beginning of the octets and answers its length; on an Err it takes none.
    ///
    /// A writer that is marked answers an Err.
    fn put(&mut self, octets: &[u8]) -> io::Result<usize>
        ensures bound { WritesAtMost result octets.now }
        ensures bytes { WriteAppends (state self.old).told (state self.new).told result octets.now }
        ensures mark { (state self.new).failed ≡
            (put_fails result octets.now || (state self.old).failed) }
        ensures marked { IsTrue (state self.old).failed → IsErr result }
        ensures call { puts self.old octets.now result self.new };
}

/// Makes a [`DerWrite`] of any std writer: it is marked by its first failure, and answers an Err of kind `WriteZero`
/// from then on.
#[derive(Debug, Drop)]
pub struct Told<W> {
    inner: W,
    is_failed: bool,
}

impl<W> Told<W> {
    /// The writer, not marked.
    pub fn new(inner: W) -> Told<W>
        ensures inner { wrapped_in result ≡ inner }
        ensures unmarked { mark_of result ≡ false }
    {
        Told {
            inner,
            is_failed: false,
        }
    }

    /// Whether it is marked.
    pub fn is_failed(&self) -> bool
        ensures { result ≡ mark_of self.now }
    {
        self.is_failed
    }

    /// The writer within.
    pub fn as_inner(&self) -> &W
        ensures { result.now ≡ wrapped_in self.now }
    {
        &self.inner
    }

    /// The writer within, by value.
    pub fn into_inner(self) -> W
        ensures { result ≡ wrapped_in self }
    {
        self.inner
    }
}

impl<W: TellsWrites> DerWrite for Told<W> {
    ghost state = { λ t. record { told = W.contents (wrapped_in t); failed = mark_of t } };

    ghost puts = { ToldPut W.writes };

    #[inline(always)]
    fn put(&mut self, octets: &[u8]) -> io::Result<usize> {
        if self.is_failed {
            return Err(io::Error::from(ErrorKind::WriteZero));
        }
        match self.inner.write_once(octets) {
            Ok(n) => {
                if n == 0 && !octets.is_empty() {
                    self.is_failed = true;
                }
                Ok(n)
            }
            Err(e) => {
                self.is_failed = true;
                Err(e)
            }
        }
    }
}

/// A writer that takes all octets and keeps none.
///
/// It never fails and asks for no memory. So what refuses a writing to it is the value, its length, or want of memory.
#[derive(Debug, Clone, Copy)]
pub struct Sink;

impl DerWrite for Sink {
    ghost state = { λ _. record { told = None; failed = false } };

    #[inline(always)]
    fn put(&mut self, octets: &[u8]) -> io::Result<usize> {
        Ok(octets.len())
    }
}

/// One call of `put`: what it took, at least one octet; its failure; or a failure of kind `WriteZero` where it took
/// none.
#[inline(always)]
fn put_some<W: DerWrite>(w: &mut W, piece: &[u8]) -> SerializeResult<usize>
    requires { piece.now ≢ [] }
    ensures took { IfOk result (λ n. W.puts w.old piece.now (Ok n) w.new) }
    ensures refused { IfErr result (PutRefused W.puts piece.now w.old w.new) }
    ensures once { PutOnce piece.now (W.state w.old) (W.state w.new) result }
{
    match w.put(piece) {
        Ok(0) => Err(SerializeError::IOError(io::Error::from(ErrorKind::WriteZero))),
        Ok(n) => Ok(n),
        Err(e) => Err(SerializeError::IOError(e)),
    }
}

/// Appends the piece, by as many calls of `put` as it takes, each with all that is left, and answers its length.
///
/// Refused with `IOError` alone: with what `put` failed with, or of kind `WriteZero` where it took none. A piece of no
/// octets asks for no call.
// Public, since every writer of a caller's type needs it, and so does the program.
#[inline(always)]
pub fn put_all<W: DerWrite>(w: &mut W, piece: &[u8]) -> SerializeResult<usize>
    ensures wrote { Wrote piece.now (W.state w.old) (W.state w.new) result }
    ensures failed { IfErr result (MayRefuse false 0) }
    ensures calls { PutInCalls W.puts piece.now w.old w.new result }
    ensures nothing { piece.now ≡ [] → (result ≡ Ok 0) × (w.new ≡ w.old) }
{
    let mut rest = piece;
    while !rest.is_empty() {
        let n = put_some(w, rest)?;
        rest = &rest[n..];
    }
    Ok(piece.len())
}

/// The sum of two numbers of octets that were written.
#[inline(always)]
pub fn add_written(before: usize, after: usize) -> SerializeResult<usize>
    ensures { SumsWritten before after result }
{
    before
        .checked_add(after)
        .ok_or(SerializeError::InvalidLength)
}
