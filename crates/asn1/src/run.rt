//! A call of the program.

use crate::encoding::answer_encode;
use crate::files::{Document, FileError, documents, read, told};
use crate::modules::answer_types;
use crate::typed::answer_typed;
use crate::words::{
    Call, Task, asked, asked_by_type, asked_to_encode, command, is_normal, modules, most,
};
use asn1_engine::outcome::{FAILED, Outcome};
use asn1_engine::plain::seems_text;
use asn1_engine::{Finding, RunError, check, check_all, dump, dump_at};
use std::alloc::Global;
use std::io::{BufWriter, Write};
use std::process::ExitCode;
use std::rt::{Env, Files};
use std::{env, io};

/// Does the task with one document, with its name above the tree where that is not the only one.
fn answer<W: Write>(
    alloc: Global,
    task: Task,
    document: &Document,
    titled: bool,
    out: &mut W,
) -> Result<Finding, RunError> {
    let name = document.name.as_str();
    let octets = document.octets.as_slice();
    match task {
        Task::Check(false) => check(alloc, name, octets, out),
        Task::Check(true) => check_all(alloc, name, octets, out),
        Task::Dump(options, at) => {
            if titled && !options.json {
                writeln!(out, "{name}")?;
            }
            match at {
                None => dump(alloc, octets, &options, out),
                Some(offset) => dump_at(alloc, octets, offset, &options, out),
            }
        }
    }
}

/// Tells on standard error where a document that is refused seems to be a text.
fn hint<R: Eprint>(rt: &R, document: &Document) {
    if seems_text(document.octets.as_slice()) {
        let name = document.name.as_str();
        let _ = eprintln!(rt;
            "asn1: {name}: this seems to be text, not BER; --from hex and --from base64 read text"
        );
    }
}

/// The documents of a file.
fn open<R: Files + Input + AllocGlobal>(
    rt: &R,
    call: Call,
    path: &str,
) -> Result<Vec<Document>, FileError> {
    let octets = read(rt, path, call.most)?;
    documents(rt.alloc(), path, call.form, octets)
}

/// Does the task with each document of a file. A file that has none is told on standard error.
fn answer_file<R: Files + Input + Eprint + AllocGlobal, W: Write>(
    rt: &R,
    call: Call,
    path: &str,
    titled: bool,
    out: &mut W,
) -> Result<Outcome, RunError> {
    let found = match open(rt, call, path) {
        Ok(found) => found,
        Err(error) => return told(rt, path, &error),
    };
    let titled = titled || found.len() > 1;
    let mut finding = Finding::Holds;
    for document in &found {
        let of_document = answer(rt.alloc(), call.task, document, titled, out)?;
        if of_document == Finding::Refused {
            hint(rt, document);
        }
        finding = finding.and(of_document);
    }
    Ok(Outcome::Found(finding))
}

/// Does the task with each file, in the order of the words.
fn answer_files<R: Files + Input + Print + Eprint + AllocGlobal>(
    rt: &R,
    call: Call,
    paths: &[&str],
) -> Result<Outcome, RunError> {
    let mut out = BufWriter::new(rt.alloc(), io::writer(rt)).map_err(|_| RunError::OutOfMemory)?;
    let mut outcome = Outcome::Found(Finding::Holds);
    for path in paths {
        outcome = outcome.and(answer_file(rt, call, path, paths.len() > 1, &mut out)?);
    }
    out.flush()?;
    Ok(outcome)
}

/// Runs a call.
fn run<R: Files + Env + Input + Print + Eprint + AllocGlobal>(
    rt: &R,
    on_terminal: bool,
) -> anyhow::Result<u8> {
    let alloc = rt.alloc();
    let words: Vec<String> = env::args(rt)?.collect(alloc)?;
    let matches = match command(alloc)?.try_get_matches_from(words.as_slice()) {
        Ok(matches) => matches,
        Err(error) => {
            error.print(rt)?;
            return Ok(if error.exit_code() == 0 { 0 } else { FAILED });
        }
    };
    let Some((name, inner)) = matches.subcommand() else {
        return Ok(FAILED);
    };
    if name == "types" {
        return Ok(answer_types(rt, is_normal(inner), modules(inner), most(inner))?.status());
    }
    if name == "encode" {
        return match asked_to_encode(inner) {
            Some(call) => Ok(answer_encode(rt, &call)?.status()),
            None => Ok(FAILED),
        };
    }
    let Some(paths) = inner.get_strs("file") else {
        return Ok(FAILED);
    };
    if let Some(call) = asked_by_type(name, inner, on_terminal) {
        return Ok(answer_typed(rt, &call, paths)?.status());
    }
    Ok(answer_files(rt, asked(name, inner), paths)?.status())
}

/// The exit status of a call: 0, 1 for octets that are refused, or 2. A failure has one line on standard error.
pub fn status<R: Files + Env + Input + Print + Eprint + AllocGlobal>(
    rt: &R,
    on_terminal: bool,
) -> ExitCode {
    match run(rt, on_terminal) {
        Ok(status) => ExitCode::from(status),
        Err(error) => {
            let _ = eprintln!(rt; "asn1: {error}");
            ExitCode::from(FAILED)
        }
    }
}
