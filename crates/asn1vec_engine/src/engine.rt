//! The run over an input: an answer for each line.
ghost use Rattle.std.specs.Prelude.{◌≡◌, ◌≢◌, ℕ, ◌++◌, ◌∷◌, [], List, Option, Some, All, OnOk, OnErr, IfSome};
ghost use Rattle.std.specs.Prelude.{◌⊎◌};
ghost use Rattle.std.specs.Io.KnownBytes.{Appends};
ghost use Rattle.asn1vec_answers.specs.Answer.{IsAnswerLine};
ghost use Rattle.asn1vec_engine.specs.Lines.{lines_of};
ghost use Rattle.asn1vec_answers.specs.Memory.{TakesNoMemory};
ghost use Rattle.asn1vec_engine.specs.Outputs.{AllAlike, BeginsAnswer};
ghost use Rattle.asn1vec_engine.specs.Engine.{AnswersTo, BeginsAnswersTo, GainsAnswers, GainsBeginning, TellsMark};
ghost use Rattle.asn1vec_engine.specs.Engine.{last_line};
ghost use Rattle.asn1vec_engine.specs.declared.engine.RunError.TheVariants.{OutOfMemory};

use asn1_rs::DerWrite;
use asn1_rs::author::put_all;
use asn1vec_answers::{LONGEST_LINE, answer_line, one_answer, split_once};
use std::alloc::{AllocError, Global};
use std::fmt;
use std::io::Read;

/// Why a run ended before its input. Its text is the last line of the program.
#[derive(Clone, Copy, Debug, PartialEq, Eq)]
pub enum RunError {
    /// The reader answered an Err, or gave octets 2^64 - 1 times and was not at its end.
    Input,
    /// The writer failed, or was marked before.
    Output,
    /// A buffer of the run could not grow.
    OutOfMemory,
}

impl fmt::Display for RunError {
    ghost output = { λ e. Some (last_line e) };

    fn fmt<W: fmt::Write>(&self, f: &mut fmt::Formatter<W>) -> fmt::Result {
        match self {
            RunError::Input => write!(f, "asn1vec: input failed"),
            RunError::Output => write!(f, "asn1vec: output failed"),
            RunError::OutOfMemory => write!(f, "asn1vec: out of memory"),
        }
    }
}

impl std::error::Error for RunError {}

impl From<AllocError> for RunError {
    ghost from_gives = { λ _ e. e ≡ OutOfMemory };

    fn from(_e: AllocError) -> RunError {
        RunError::OutOfMemory
    }
}

/// What a run keeps from line to line. An answer takes no new memory once the parts are long enough for it.
#[derive(Debug, Drop)]
struct Buffers {
    /// The octets that the line asks for.
    octets: Vec<u8>,
    /// The encoding that its answer tells.
    encoding: Vec<u8>,
    /// Its answer.
    text: Vec<u8>,
}

impl Buffers {
    /// Buffers with no memory.
    fn new(alloc: Global) -> Buffers {
        Buffers {
            octets: Vec::new(alloc),
            encoding: Vec::new(alloc),
            text: Vec::new(alloc),
        }
    }
}

/// Writes the answer to a line.
fn write_answer<W: DerWrite>(
    alloc: Global,
    line: &[u8],
    buffers: &mut Buffers,
    output: &mut W,
) -> Result<(), RunError>
    ensures ok { OnOk result ((ended : List ℕ)
        × IsAnswerLine line.now ended ×
        Appends (W.state output.old).told (W.state output.new).told ended) }
    ensures err { OnErr result ((front : List ℕ)
        × ((front ≡ []) ⊎ BeginsAnswer line.now front)
        × Appends (W.state output.old).told (W.state output.new).told front) }
    ensures mark { TellsMark (W.state output.old).failed (W.state output.new).failed result }
{
    let Buffers {
        octets,
        encoding,
        text,
    } = buffers;
    answer_line(alloc, line, octets, encoding, text)?;
    match put_all(output, text.as_slice()) {
        Ok(_) => Ok(()),
        Err(_) => Err(RunError::Output),
    }
}

/// Keeps octets of a line, but for those that follow one more than the longest line has.
fn keep(line: &mut Vec<u8>, octets: &[u8]) -> Result<(), AllocError>
    requires open { All (λ x. x ≢ 10) line.old.items }
    requires octets { All (λ x. x ≢ 10) octets.now }
    ensures open { OnOk result (All (λ x. x ≢ 10) line.new.items) }
    ensures moves { OnOk result
        ((told : Option (List ℕ)) → GainsAnswers told told (line.old.items ++ octets.now)
        line.new.items) }
{
    let room = (LONGEST_LINE + 1).saturating_sub(line.len());
    let kept = octets.len().min(room);
    line.extend_from_slice(&octets[..kept])?;
    Ok(())
}

/// Answers the line that ends with these octets, of which the ones before are kept.
fn end_line<W: DerWrite>(
    alloc: Global,
    line: &mut Vec<u8>,
    last: &[u8],
    buffers: &mut Buffers,
    output: &mut W,
) -> Result<(), RunError>
    requires open { All (λ x. x ≢ 10) line.old.items }
    requires last { All (λ x. x ≢ 10) last.now }
    ensures open { OnOk result (All (λ x. x ≢ 10) line.new.items) }
    ensures ok { OnOk result (GainsAnswers (W.state output.old).told (W.state output.new).told
        ((line.old.items ++ last.now) ++ 10 ∷ []) line.new.items) }
    ensures err { OnErr result (GainsBeginning (W.state output.old).told (W.state output.new).told
        ((line.old.items ++ last.now) ++ 10 ∷ [])) }
    ensures mark { TellsMark (W.state output.old).failed (W.state output.new).failed result }
{
    if line.is_empty() {
        return write_answer(alloc, last, buffers, output);
    }
    keep(line, last)?;
    write_answer(alloc, line.as_slice(), buffers, output)?;
    line.clear();
    Ok(())
}

/// Takes octets: each line that they end is answered, and what follows is kept.
fn take_octets<W: DerWrite>(
    alloc: Global,
    line: &mut Vec<u8>,
    octets: &[u8],
    buffers: &mut Buffers,
    output: &mut W,
) -> Result<(), RunError>
    requires { All (λ x. x ≢ 10) line.old.items }
    ensures open { OnOk result (All (λ x. x ≢ 10) line.new.items) }
    ensures ok { OnOk result (GainsAnswers (W.state output.old).told (W.state output.new).told
        (line.old.items ++ octets.now) line.new.items) }
    ensures err { OnErr result (GainsBeginning (W.state output.old).told (W.state output.new).told
        (line.old.items ++ octets.now)) }
    ensures mark { TellsMark (W.state output.old).failed (W.state output.new).failed result }
{
    let mut rest = octets;
    'lines: while let Some((last, after)) = split_once(rest, b'\n') {
        end_line(alloc, line, last, buffers, output)?;
        rest = after;
    }
    keep(line, rest)?;
    Ok(())
}

/// Answers the line that the end of input ends.
fn finish<W: DerWrite>(
    alloc: Global,
    line: &[u8],
    buffers: &mut Buffers,
    output: &mut W,
) -> Result<(), RunError>
    requires { All (λ x. x ≢ 10) line.now }
    ensures ok { OnOk result ((texts : List ℕ)
        × AnswersTo line.now texts ×
        Appends (W.state output.old).told (W.state output.new).told texts) }
    ensures err { OnErr result ((texts : List ℕ)
        × BeginsAnswersTo line.now texts ×
        Appends (W.state output.old).told (W.state output.new).told texts) }
    ensures mark { TellsMark (W.state output.old).failed (W.state output.new).failed result }
{
    if line.is_empty() {
        return Ok(());
    }
    write_answer(alloc, line, buffers, output)
}

/// Answers each line of the input, in order.
///
/// The first Err of the reader, of whatever kind, ends the run with `Input`. So do 2^64 - 1 reads that do not come to
/// the end of the input. After `Output` the writer is marked: it failed in this run, or was marked before. After any
/// other answer its mark is as it was.
pub fn run<R: Read, W: DerWrite>(
    alloc: Global,
    input: &mut R,
    output: &mut W,
) -> Result<(), RunError>
    // All lines are answered, where the reader tells its octets.
    ensures ok { OnOk result (IfSome (R.remaining input.old) (λ octets. (texts : List ℕ)
        × AnswersTo octets texts ×
        Appends (W.state output.old).told (W.state output.new).told texts)) }
    // After a failure the writer has gained a beginning of the answers.
    ensures err { OnErr result (IfSome (R.remaining input.old) (λ octets. (texts : List ℕ)
        × BeginsAnswersTo octets texts ×
        Appends (W.state output.old).told (W.state output.new).told texts)) }
    ensures mark { TellsMark (W.state output.old).failed (W.state output.new).failed result }
{
    let mut line = Vec::new(alloc);
    let mut buffers = Buffers::new(alloc);
    let mut chunk = [0u8; 4096];
    for _ in 0..u64::MAX {
        match input.read(&mut chunk) {
            Ok(0) => return finish(alloc, line.as_slice(), &mut buffers, output),
            Ok(n) => take_octets(alloc, &mut line, &chunk[..n], &mut buffers, output)?,
            Err(_) => return Err(RunError::Input),
        }
    }
    Err(RunError::Input)
}

/// An input has one output, except when out of memory in a line where reading or writing what it names
/// allocates. What is written up to a failure is a beginning of it, but for the same.
pub fn one_output()
    ensures alike { (octets texts others : List ℕ) → AnswersTo octets texts →
        AnswersTo octets others → AllAlike (lines_of octets) texts others }
    ensures begins_alike { (octets front texts : List ℕ)
        → BeginsAnswersTo octets front → AnswersTo octets texts
        → (lost : List ℕ) × AllAlike (lines_of octets) (front ++ lost) texts }
    ensures whole { (octets texts others : List ℕ) → All TakesNoMemory (lines_of octets)
        → AnswersTo octets texts → AnswersTo octets others → texts ≡ others }
    ensures beginning { (octets front texts : List ℕ) → All TakesNoMemory (lines_of octets)
        → BeginsAnswersTo octets front → AnswersTo octets texts
        → (lost : List ℕ) × (texts ≡ front ++ lost) }
{
    one_answer();
}
