//! The types of modules, in a table that is sound.
ghost use Rattle.std.specs.Prelude.{◌≡◌, length, true, IfOk, IfSome};
ghost use Rattle.asn1_module.specs.Leads.{lead_within};
ghost use Rattle.asn1_module.specs.Modules.{HavePlaces};
ghost use Rattle.asn1_schema.specs.Sound.{is_sound};

use crate::listing::{push_unsound, texts_of};
use crate::places::push_mistake;
use crate::source::Source;
use asn1_engine::RunError;
use asn1_module::mistake::ModuleError;
use asn1_module::modules::{Modules, read_modules};
use asn1_schema::build::Schema;
use asn1_schema::sound::why_unsound;
use std::alloc::Global;

/// The types of modules, by which octets can be read.
#[derive(Debug, Drop)]
pub struct TypeTable<'t> {
    /// The table, which is sound.
    pub schema: Schema<'t>,
    /// Which types have names.
    pub modules: Modules<'t>,
}

/// Reads the types of modules. None comes where a text has a mistake, or a type is not sound: its line is appended.
pub fn sound_types<'t>(
    alloc: Global,
    sources: &[Source<'t>],
    said: &mut Vec<u8>,
) -> Result<Option<TypeTable<'t>>, RunError>
    ensures sound { IfOk result (λ found. IfSome found (λ table.
        is_sound table.schema.nodes.items ≡ true)) }
    ensures leads { IfOk result (λ found. IfSome found (λ table.
        lead_within table.schema.nodes.items ≡ true)) }
    ensures places { IfOk result (λ found. IfSome found (λ table.
        HavePlaces table.modules.types.items (length table.schema.nodes.items))) }
{
    let texts = texts_of(alloc, sources)?;
    let mut schema = Schema::new(alloc);
    let mut notes = Vec::new(alloc);
    let modules = match read_modules(alloc, &texts, &mut schema, &mut notes) {
        Ok(modules) => modules,
        Err(ModuleError::OutOfMemory) => return Err(RunError::OutOfMemory),
        Err(ModuleError::Mistake(mistake)) => {
            push_mistake(alloc, said, sources, mistake)?;
            return Ok(None);
        }
    };
    match why_unsound(&schema.nodes) {
        None => Ok(Some(TypeTable { schema, modules })),
        Some(unsound) => {
            push_unsound(alloc, said, &schema, unsound)?;
            Ok(None)
        }
    }
}
