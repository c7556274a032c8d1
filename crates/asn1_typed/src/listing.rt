//! The types of modules, a line each, and whether their table is sound.
ghost use Rattle.std.specs.Prelude.{◌≡◌, ◌++◌, List, ℕ, slice_get, IfOk, OnOk};
ghost use Rattle.std.specs.Io.KnownBytes.{Appends};
ghost use Rattle.asn1_typed.specs.Listing.{IsListingOrMistake, IsListing, IsSoundLine, TellsSound};
ghost use Rattle.asn1_typed.specs.Listing.{node_tags_text, note_lines, type_line, type_lines, unsound_text};
ghost use Rattle.asn1_typed.specs.Places.{IsMistakeLine};

use crate::kinds::{MOST_DEPTH, push_type};
use crate::places::{push_mistake, push_note};
use crate::source::Source;
use crate::tags::push_tags;
use asn1_engine::{Finding, RunError};
use asn1_module::mistake::{Mistake, ModuleError};
use asn1_module::modules::{ModuleType, read_modules};
use asn1_module::syntax::Note;
use asn1_schema::build::Schema;
use asn1_schema::sound::why_unsound;
use asn1_schema::unsound::Unsound;
use asn1_words::words::push_str;
use std::alloc::{AllocError, Global};
use std::io::Write;

/// Appends the tags of the type at a place, each behind a space.
fn push_tags_at(text: &mut Vec<u8>, schema: &Schema<'_>, of: usize) -> Result<(), AllocError>
    ensures { OnOk result (text.new.items ≡ text.old.items ++
        node_tags_text (slice_get schema.now.nodes.items of)) }
{
    match schema.nodes.get(of) {
        None => Ok(()),
        Some(node) => push_tags(text, &node.tags),
    }
}

/// Appends the line of a type.
fn push_line(
    text: &mut Vec<u8>,
    schema: &Schema<'_>,
    named: &ModuleType<'_>,
) -> Result<(), AllocError>
    ensures { OnOk result (text.new.items ≡ text.old.items ++
        type_line schema.now.nodes.items schema.now.names.items named.now) }
{
    push_str(text, named.module)?;
    push_str(text, ".")?;
    push_str(text, named.name)?;
    push_str(text, ":")?;
    push_tags_at(text, schema, named.of)?;
    push_str(text, " ")?;
    push_type(text, schema, named.of, MOST_DEPTH)?;
    push_str(text, "\n")?;
    Ok(())
}

/// Appends a line for each type.
fn push_lines(
    text: &mut Vec<u8>,
    schema: &Schema<'_>,
    types: &[ModuleType<'_>],
) -> Result<(), AllocError>
    ensures { OnOk result (text.new.items ≡ text.old.items ++
        type_lines schema.now.nodes.items schema.now.names.items types.now) }
{
    for named in types {
        push_line(text, schema, named)?;
    }
    Ok(())
}

/// Appends a line for each note.
fn push_notes(text: &mut Vec<u8>, sources: &[Source<'_>], notes: &[Note]) -> Result<(), AllocError>
    ensures { OnOk result (text.new.items ≡ text.old.items ++ note_lines sources.now notes.now) }
{
    for note in notes {
        push_note(text, sources, *note)?;
    }
    Ok(())
}

/// Appends why a table is not sound.
pub fn push_unsound(
    alloc: Global,
    text: &mut Vec<u8>,
    schema: &Schema<'_>,
    unsound: Unsound,
) -> Result<(), AllocError>
    ensures { OnOk result ((why : List ℕ) × (text.new.items ≡ text.old.items ++ unsound_text why)) }
{
    let why = unsound.by_name(&schema.names);
    let words = format!(in alloc; "{why}")?;
    push_str(text, "not sound: ")?;
    push_str(text, words.as_str())?;
    push_str(text, "\n")?;
    Ok(())
}

/// Appends whether a table is sound, and if not, which type is not and why.
fn push_verdict(
    alloc: Global,
    text: &mut Vec<u8>,
    schema: &Schema<'_>,
) -> Result<Finding, AllocError>
    ensures finds { IfOk result (TellsSound schema.now.nodes.items) }
    ensures prints { OnOk result ((line : List ℕ) × IsSoundLine schema.now.nodes.items line ×
        (text.new.items ≡ text.old.items ++ line)) }
{
    match why_unsound(&schema.nodes) {
        None => {
            push_str(text, "sound\n")?;
            Ok(Finding::Holds)
        }
        Some(unsound) => {
            push_unsound(alloc, text, schema, unsound)?;
            Ok(Finding::Refused)
        }
    }
}

/// Writes a line for each type of a table, for each note, and whether the table is sound.
pub fn write_types<W: Write>(
    alloc: Global,
    sources: &[Source<'_>],
    schema: &Schema<'_>,
    types: &[ModuleType<'_>],
    notes: &[Note],
    out: &mut W,
) -> Result<Finding, RunError>
    ensures finds { IfOk result (TellsSound schema.now.nodes.items) }
    ensures prints { OnOk result ((shown : List ℕ) ×
        IsListing sources.now schema.now.nodes.items schema.now.names.items types.now notes.now shown ×
        Appends (W.contents out.old) (W.contents out.new) shown) }
{
    let mut text = Vec::new(alloc);
    push_lines(&mut text, schema, types)?;
    push_notes(&mut text, sources, notes)?;
    let finding = push_verdict(alloc, &mut text, schema)?;
    out.write_all(text.as_slice())?;
    Ok(finding)
}

/// Writes the line of a mistake.
pub fn write_mistake<W: Write>(
    alloc: Global,
    sources: &[Source<'_>],
    mistake: Mistake,
    out: &mut W,
) -> Result<(), RunError>
    ensures { OnOk result ((shown : List ℕ) × IsMistakeLine sources.now mistake.place shown ×
        Appends (W.contents out.old) (W.contents out.new) shown) }
{
    let mut text = Vec::new(alloc);
    push_mistake(alloc, &mut text, sources, mistake)?;
    out.write_all(text.as_slice())?;
    Ok(())
}

/// The texts without their names.
pub fn texts_of<'a>(alloc: Global, sources: &[Source<'a>]) -> Result<Vec<&'a [u8]>, AllocError> {
    let mut texts = Vec::with_capacity(alloc, sources.len())?;
    for source in sources {
        texts.push(source.text)?;
    }
    Ok(texts)
}

/// Writes a line for each type of modules, for each note, and whether the types are sound. A mistake in a text has one
/// line.
pub fn types<W: Write>(
    alloc: Global,
    sources: &[Source<'_>],
    out: &mut W,
) -> Result<Finding, RunError>
    ensures { IfOk result (λ finding. (shown : List ℕ) ×
        IsListingOrMistake sources.now finding shown ×
        Appends (W.contents out.old) (W.contents out.new) shown) }
{
    let texts = texts_of(alloc, sources)?;
    let mut schema = Schema::new(alloc);
    let mut notes = Vec::new(alloc);
    match read_modules(alloc, &texts, &mut schema, &mut notes) {
        Ok(modules) => {
            let finding = write_types(alloc, sources, &schema, &modules.types, &notes, out)?;
            Ok(finding)
        }
        Err(ModuleError::OutOfMemory) => Err(RunError::OutOfMemory),
        Err(ModuleError::Mistake(mistake)) => {
            write_mistake(alloc, sources, mistake, out)?;
            Ok(Finding::Refused)
        }
    }
}
