//! Places in texts, and what is told of them.
ghost use Rattle.std.specs.Prelude.{◌≡◌, ◌++◌, List, ℕ, OnOk};
ghost use Rattle.asn1_typed.specs.Places.{IsMistakeLine, table_left_out_text, note_text, place_text, position_text};

use crate::source::Source;
use asn1_module::mistake::{Mistake, Place, position};
use asn1_module::syntax::{LeftOut, Note};
use asn1_words::words::{push_number, push_str};
use std::alloc::{AllocError, Global};

/// Appends the name of a text, and the line and the column of an octet, both from 1.
fn push_position(text: &mut Vec<u8>, source: &Source<'_>, octet: usize) -> Result<(), AllocError>
    ensures { OnOk result (text.new.items ≡ text.old.items ++ position_text source.now octet) }
{
    let (line, column) = position(source.text, octet);
    push_str(text, source.name)?;
    push_str(text, ":")?;
    push_number(text, line as u64)?;
    push_str(text, ":")?;
    push_number(text, column as u64)?;
    Ok(())
}

/// Appends the name of a text, and the line and the column of a place in it.
pub fn push_place(
    text: &mut Vec<u8>,
    sources: &[Source<'_>],
    place: Place,
) -> Result<(), AllocError>
    ensures { OnOk result (text.new.items ≡ text.old.items ++ place_text sources.now place) }
{
    match sources.get(place.text) {
        None => {
            push_str(text, "octet ")?;
            push_number(text, place.octet as u64)
        }
        Some(source) => push_position(text, source, place.octet),
    }
}

/// What is left out of a table, in words.
fn left_out(what: LeftOut) -> &'static str
    ensures { result.now ≡ table_left_out_text what }
{
    match what {
        LeftOut::Constraint => "a constraint is not judged",
        LeftOut::Open => "any element is read",
        LeftOut::Default => "a default is not read, and the component may be left out",
        LeftOut::Middle => "no unknown elements are read before these components",
    }
}

/// Appends the line of a note.
pub fn push_note(text: &mut Vec<u8>, sources: &[Source<'_>], note: Note) -> Result<(), AllocError>
    ensures { OnOk result (text.new.items ≡ text.old.items ++ note_text sources.now note) }
{
    push_place(text, sources, note.place)?;
    push_str(text, ": ")?;
    push_str(text, left_out(note.what))?;
    push_str(text, "\n")
}

/// Appends the line of a mistake.
pub fn push_mistake(
    alloc: Global,
    text: &mut Vec<u8>,
    sources: &[Source<'_>],
    mistake: Mistake,
) -> Result<(), AllocError>
    ensures { OnOk result ((line : List ℕ) × IsMistakeLine sources.now mistake.place line ×
        (text.new.items ≡ text.old.items ++ line)) }
{
    let wrong = mistake.wrong;
    let words = format!(in alloc; "{wrong}")?;
    push_place(text, sources, mistake.place)?;
    push_str(text, ": ")?;
    push_str(text, words.as_str())?;
    push_str(text, "\n")?;
    Ok(())
}
