//! Modules in a normal form: what was understood of texts, printed as modules again.
//!
//! All tags are written, names of other modules stand with their modules, and values and what is not judged are left
//! out. Read again, the text has the same types, and they are printed as the same text.

mod named;
mod types;
mod values;

use crate::listing::{texts_of, write_mistake};
use crate::normal::named::RowNames;
use crate::normal::types::Printer;
use crate::source::Source;
use asn1_engine::{Finding, RunError};
use asn1_module::mistake::ModuleError;
use asn1_module::modules::{ModuleType, read_modules};
use asn1_schema::build::Schema;
use asn1_words::words::push_str;
use std::alloc::{AllocError, Global};
use std::io::Write;

/// Ends the module before, if there is one, and begins another one.
fn begin_module<'t>(printer: &mut Printer<'_, 't>, name: &'t str) -> Result<(), AllocError> {
    if !printer.text.is_empty() {
        push_str(&mut printer.text, "\nEND\n\n")?;
    }
    printer.module = name;
    push_str(&mut printer.text, name)?;
    push_str(&mut printer.text, " DEFINITIONS EXPLICIT TAGS ::= BEGIN\n")
}

/// Prints the modules of types.
fn print<'s, 't: 's>(
    alloc: Global,
    schema: &'s Schema<'t>,
    types: &'s [ModuleType<'t>],
) -> Result<Printer<'s, 't>, AllocError> {
    let mut printer = Printer::new(alloc, RowNames::new(alloc, schema, types)?);
    for (at, named) in types.iter().enumerate() {
        if printer.text.is_empty() || printer.module != named.module {
            begin_module(&mut printer, named.module)?;
        }
        printer.push_assignment(at)?;
    }
    if !printer.text.is_empty() {
        push_str(&mut printer.text, "\nEND\n")?;
    }
    Ok(printer)
}

/// Writes modules in their normal form. A mistake in a text has one line. Where something has no notation, or nests
/// too deep, `..` stands in its place, and the answer is `Refused`.
pub fn normal_form<W: Write>(
    alloc: Global,
    sources: &[Source<'_>],
    out: &mut W,
) -> Result<Finding, RunError> {
    let texts = texts_of(alloc, sources)?;
    let mut schema = Schema::new(alloc);
    let mut notes = Vec::new(alloc);
    match read_modules(alloc, &texts, &mut schema, &mut notes) {
        Ok(modules) => {
            let printer = print(alloc, &schema, &modules.types)?;
            out.write_all(printer.text.as_slice())?;
            Ok(if printer.is_truncated {
                Finding::Refused
            } else {
                Finding::Holds
            })
        }
        Err(ModuleError::OutOfMemory) => Err(RunError::OutOfMemory),
        Err(ModuleError::Mistake(mistake)) => {
            write_mistake(alloc, sources, mistake, out)?;
            Ok(Finding::Refused)
        }
    }
}
