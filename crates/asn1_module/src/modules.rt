//! Modules, read into a table.
ghost use Rattle.std.specs.Prelude.{◌≡◌, ◌≢◌, ◌<◌, length, true, false, IfSome, IfNone, IfOk, IfErr, OnOk};
ghost use Rattle.asn1_module.specs.Leads.{added_in_order, lead_within};
ghost use Rattle.asn1_module.specs.Mistakes.{StandsWithin};
ghost use Rattle.asn1_module.specs.Modules.{HavePlaces, IsTypeNamed, LacksType};

use crate::components::Rows;
use crate::leads::check_leads;
use crate::mistake::{Mistake, ModuleError, Place, Wrong};
use crate::places::Places;
use crate::reader::Reader;
use crate::scopes::Scopes;
use crate::syntax::{Assignment, Meaning, Note, Syntax};
use crate::tokens::tokens_of;
use crate::values::Texts;
use asn1_schema::build::Schema;
use std::alloc::Global;

/// A type of a module.
#[derive(Debug, Clone, Copy)]
pub struct ModuleType<'t> {
    /// The name of the module.
    pub module: &'t str,
    /// The name of the type.
    pub name: &'t str,
    /// Its place in the table.
    pub of: usize,
}

/// The types of modules, in the order in which they are assigned.
#[derive(Debug, Drop)]
pub struct Modules<'t> {
    /// The types.
    pub types: Vec<ModuleType<'t>>,
}

/// Whether a type has this name.
fn is_named(named: &ModuleType<'_>, name: &str) -> bool
    ensures yes { result ≡ true → named.now.name.now ≡ name.now }
    ensures no { result ≡ false → named.now.name.now ≢ name.now }
{
    named.name == name
}

impl<'t> Modules<'t> {
    /// The place of the first type that has this name.
    pub fn type_named(&self, name: &str) -> Option<usize>
        ensures some { IfSome result (IsTypeNamed self.now.types.items name.now) }
        ensures none { IfNone result (LacksType self.now.types.items name.now) }
    {
        for named in &self.types {
            if is_named(named, name) {
                return Some(named.of);
            }
        }
        None
    }
}

/// A refusal whose mistake stands within its text, or at its end.
fn within(texts: &[&[u8]], error: ModuleError) -> ModuleError
    ensures { StandsWithin texts.now result }
{
    match error {
        ModuleError::OutOfMemory => ModuleError::OutOfMemory,
        ModuleError::Mistake(mistake) => {
            let place = mistake.place;
            let octet = match texts.get(place.text) {
                None => place.octet,
                Some(text) => place.octet.min(text.len()),
            };
            let text = place.text;
            ModuleError::Mistake(Mistake {
                wrong: mistake.wrong,
                place: Place { text, octet },
            })
        }
    }
}

/// What the texts say, as it is written.
fn read_syntax<'t>(alloc: Global, texts: &[&'t [u8]]) -> Result<Syntax<'t>, ModuleError> {
    let tokens = tokens_of(alloc, texts)?;
    let mut reader = Reader::new(alloc, &tokens);
    reader.read_all()?;
    Ok(reader.into_syntax())
}

/// The type that a name is assigned to, with its place among so many types of a table.
fn placed_type<'t>(
    syntax: &Syntax<'t>,
    places: &Places<'_, 't>,
    count: usize,
    assignment: &Assignment<'t>,
    at: usize,
) -> Result<ModuleType<'t>, ModuleError>
    ensures { IfOk result (λ named. named.of < count) }
{
    let module = syntax.modules.get(assignment.module);
    match (module, places.placed(at)) {
        (Some(module), Some(of)) if of < count => Ok(ModuleType {
            module: module.name,
            name: assignment.name,
            of,
        }),
        _ => Err(assignment.place.error(Wrong::NotDefined)),
    }
}

/// Puts a type behind others that have places among so many types of a table.
fn push_type<'t>(
    types: &mut Vec<ModuleType<'t>>,
    named: ModuleType<'t>,
    count: usize,
) -> Result<(), ModuleError>
    ensures { HavePlaces types.old.items count → named.entry.of < count →
        OnOk result (HavePlaces types.new.items count) }
{
    types.push(named)?;
    Ok(())
}

/// The types that have names, with their places among so many types of a table.
fn named_types<'t>(
    alloc: Global,
    syntax: &Syntax<'t>,
    places: &Places<'_, 't>,
    count: usize,
) -> Result<Modules<'t>, ModuleError>
    ensures { IfOk result (λ modules. HavePlaces modules.types.items count) }
{
    let mut types = Vec::new(alloc);
    for assignment in &syntax.assignments {
        if let Meaning::Type(at) = assignment.meaning {
            let named = placed_type(syntax, places, count, assignment, at)?;
            push_type(&mut types, named, count)?;
        }
    }
    Ok(Modules { types })
}

/// Puts the types of what the texts say into a table.
fn make_types<'t>(
    alloc: Global,
    syntax: &mut Syntax<'t>,
    schema: &mut Schema<'t>,
    notes: &mut Vec<Note>,
) -> Result<Modules<'t>, ModuleError>
    ensures { IfOk result (λ modules.
        HavePlaces modules.types.items (length schema.new.nodes.items)) }
{
    let scopes = Scopes::new(alloc, syntax)?;
    Rows::new(alloc, &scopes, syntax)?.make_all(syntax)?;
    let syntax = &*syntax;
    let texts = Texts {
        syntax,
        scopes: &scopes,
    };
    let mut places = Places::new(alloc, texts)?;
    places.place_all(schema)?;
    places.define_all(schema)?;
    notes.extend_from_slice(&syntax.notes)?;
    notes.extend_from_slice(&places.notes)?;
    named_types(alloc, syntax, &places, schema.nodes.len())
}

/// Reads texts, and puts their types into a table.
fn read_texts<'t>(
    alloc: Global,
    texts: &[&'t [u8]],
    schema: &mut Schema<'t>,
    notes: &mut Vec<Note>,
) -> Result<Modules<'t>, ModuleError>
    ensures places { IfOk result (λ modules.
        HavePlaces modules.types.items (length schema.new.nodes.items)) }
    ensures leads { IfOk result (λ _. lead_within schema.new.nodes.items ≡ true) }
    ensures order { IfOk result (λ _.
        added_in_order (length schema.old.nodes.items) schema.new.nodes.items ≡ true) }
{
    let count = schema.nodes.len();
    let mut syntax = read_syntax(alloc, texts)?;
    let modules = make_types(alloc, &mut syntax, schema, notes)?;
    check_leads(&schema.nodes, count)?;
    Ok(modules)
}

/// Reads modules and puts their types into a table. Names are resolved among all of them.
///
/// After an `Err` the table may have types that are not defined. Whether it is sound is asked of `asn1_schema`.
pub fn read_modules<'t>(
    alloc: Global,
    texts: &[&'t [u8]],
    schema: &mut Schema<'t>,
    notes: &mut Vec<Note>,
) -> Result<Modules<'t>, ModuleError>
    ensures mistake { IfErr result (StandsWithin texts.now) }
    ensures places { IfOk result (λ modules.
        HavePlaces modules.types.items (length schema.new.nodes.items)) }
    ensures leads { IfOk result (λ _. lead_within schema.new.nodes.items ≡ true) }
    ensures order { IfOk result (λ _.
        added_in_order (length schema.old.nodes.items) schema.new.nodes.items ≡ true) }
{
    match read_texts(alloc, texts, schema, notes) {
        Ok(modules) => Ok(modules),
        Err(error) => Err(within(texts, error)),
    }
}
