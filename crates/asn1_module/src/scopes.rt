//! Which assignment a name stands for (X.680 13.12 to 13.17).

use crate::mistake::{ModuleError, Place, Wrong};
use crate::syntax::{Assignment, Known, Syntax};
use std::alloc::Global;
use std::cmp::Ordering;

/// Through how many modules a name may be imported.
const MOST_IMPORTS: usize = 64;

/// A name of a module, and a name that belongs to it.
#[derive(Debug, Clone, Copy, PartialEq, Eq, PartialOrd, Ord)]
struct Named<'t> {
    /// The module.
    module: usize,
    /// The name.
    name: &'t str,
    /// What belongs to it, or nothing.
    part: &'t str,
    /// Its place in the list that it was made of.
    at: usize,
}

impl<'t> Named<'t> {
    /// How it compares to a name.
    fn compare(&self, module: usize, name: &str, part: &str) -> Ordering {
        match self.module.cmp(&module) {
            Ordering::Equal => match self.name.cmp(name) {
                Ordering::Equal => self.part.cmp(part),
                other => other,
            },
            other => other,
        }
    }
}

/// The names of all modules, sorted.
#[derive(Debug, Drop)]
pub(crate) struct Scopes<'t> {
    modules: Vec<Named<'t>>,
    assignments: Vec<Named<'t>>,
    imports: Vec<Named<'t>>,
    identifiers: Vec<Named<'t>>,
    parameters: Vec<Named<'t>>,
}

/// The place of a name in the list that it was made of.
fn find(list: &[Named<'_>], module: usize, name: &str, part: &str) -> Option<usize> {
    match list.binary_search_by(|named| named.compare(module, name, part)) {
        Ok(place) => list.get(place).map(|named| named.at),
        Err(_) => None,
    }
}

/// The second one of two names that are the same.
fn twice(list: &[Named<'_>]) -> Option<usize> {
    let mut before: Option<Named<'_>> = None;
    for named in list {
        if let Some(last) = before {
            if last.compare(named.module, named.name, named.part) == Ordering::Equal {
                return Some(named.at);
            }
        }
        before = Some(*named);
    }
    None
}

/// Tells whether names are different. The second one of two that are the same is a mistake.
pub(crate) fn check_distinct(alloc: Global, names: &[(&str, Place)]) -> Result<(), ModuleError> {
    let mut list = Vec::new(alloc);
    for (at, (name, _)) in names.iter().enumerate() {
        let (module, part) = (0, "");
        list.push(Named {
            module,
            name: *name,
            part,
            at,
        })?;
    }
    list.sort_unstable();
    if let Some(at) = twice(&list) {
        if let Some((_, place)) = names.get(at) {
            return Err(place.error(Wrong::SameName));
        }
    }
    Ok(())
}

/// Names and what belongs to them, sorted.
fn sorted_known<'t>(alloc: Global, known: &[Known<'t>]) -> Result<Vec<Named<'t>>, ModuleError> {
    let mut list = Vec::new(alloc);
    for (at, entry) in known.iter().enumerate() {
        list.push(Named {
            module: entry.module,
            name: entry.of,
            part: entry.name,
            at,
        })?;
    }
    list.sort_unstable();
    Ok(list)
}

/// The names of modules, sorted. No two are the same.
fn sorted_modules<'t>(alloc: Global, syntax: &Syntax<'t>) -> Result<Vec<Named<'t>>, ModuleError> {
    let mut list = Vec::new(alloc);
    for (at, entry) in syntax.modules.iter().enumerate() {
        list.push(Named {
            module: 0,
            name: entry.name,
            part: "",
            at,
        })?;
    }
    list.sort_unstable();
    if let Some(at) = twice(&list) {
        if let Some(entry) = syntax.modules.get(at) {
            return Err(entry.place.error(Wrong::Twice));
        }
    }
    Ok(list)
}

/// The names of assignments, sorted. No two of a module are the same.
fn sorted_assignments<'t>(
    alloc: Global,
    syntax: &Syntax<'t>,
) -> Result<Vec<Named<'t>>, ModuleError> {
    let mut list = Vec::new(alloc);
    for (at, entry) in syntax.assignments.iter().enumerate() {
        list.push(Named {
            module: entry.module,
            name: entry.name,
            part: "",
            at,
        })?;
    }
    list.sort_unstable();
    if let Some(at) = twice(&list) {
        if let Some(entry) = syntax.assignments.get(at) {
            return Err(entry.place.error(Wrong::Twice));
        }
    }
    Ok(list)
}

/// The names of imports, sorted.
fn sorted_imports<'t>(alloc: Global, syntax: &Syntax<'t>) -> Result<Vec<Named<'t>>, ModuleError> {
    let mut list = Vec::new(alloc);
    for (at, entry) in syntax.imports.iter().enumerate() {
        list.push(Named {
            module: entry.module,
            name: entry.name,
            part: "",
            at,
        })?;
    }
    list.sort_unstable();
    Ok(list)
}

impl<'t> Scopes<'t> {
    /// The names of what the texts say.
    pub(crate) fn new(alloc: Global, syntax: &Syntax<'t>) -> Result<Scopes<'t>, ModuleError> {
        Ok(Scopes {
            modules: sorted_modules(alloc, syntax)?,
            assignments: sorted_assignments(alloc, syntax)?,
            imports: sorted_imports(alloc, syntax)?,
            identifiers: sorted_known(alloc, &syntax.identifiers)?,
            parameters: sorted_known(alloc, &syntax.parameters)?,
        })
    }

    /// Whether the field of a class is an OBJECT IDENTIFIER.
    pub(crate) fn is_identifier(&self, module: usize, class: &str, field: &str) -> bool {
        find(&self.identifiers, module, class, field).is_some()
    }

    /// Whether a name is a parameter of an assignment.
    pub(crate) fn is_parameter(&self, module: usize, of: &str, name: &str) -> bool {
        find(&self.parameters, module, of, name).is_some()
    }

    /// The assignment of a name of a module, which may be imported.
    fn in_module(&self, syntax: &Syntax<'t>, module: usize, name: &str) -> Option<usize> {
        let mut within = module;
        for _ in 0..MOST_IMPORTS {
            if let Some(at) = find(&self.assignments, within, name, "") {
                return Some(at);
            }
            let import = syntax.imports.get(find(&self.imports, within, name, "")?)?;
            within = find(&self.modules, 0, import.from, "")?;
        }
        None
    }

    /// The assignment that a name stands for in a module, where another module may be named.
    pub(crate) fn resolve(
        &self,
        syntax: &Syntax<'t>,
        module: usize,
        from: Option<&str>,
        name: &str,
    ) -> Option<Assignment<'t>> {
        let within = match from {
            None => module,
            Some(other) => find(&self.modules, 0, other, "")?,
        };
        let at = self.in_module(syntax, within, name)?;
        syntax.assignments.get(at).copied()
    }

    /// The refusal of a name that stands for nothing.
    pub(crate) fn unknown(&self, module: usize, name: &str, place: Place) -> ModuleError {
        if find(&self.imports, module, name, "").is_some() {
            return place.error(Wrong::NotImported);
        }
        place.error(Wrong::NotDefined)
    }
}
