//! The components of sequences and sets and the arms of choices: COMPONENTS OF, automatic tags and names (X.680 25, 27,
//! 29).

use crate::mistake::{ModuleError, Place, Wrong};
use crate::reader::MOST_DEPTH;
use crate::scopes::{Scopes, check_distinct};
use crate::syntax::{
    Appearance, Component, Meaning, Row, Syntax, TagMode, TypeEntry, TypeSyntax, part, put_all,
};
use asn1_schema::schema::TypeTag;
use std::alloc::Global;

/// Whether the components of a type are made.
#[derive(Debug, Clone, Copy)]
enum State {
    /// Not yet.
    New,
    /// They are being made.
    Going,
    /// They are.
    Done,
}

/// A component of a type, and where it stands there: those of another type stand at its COMPONENTS OF.
#[derive(Debug, Clone, Copy)]
struct Standing<'t> {
    /// The component.
    component: Component<'t>,
    /// Where it stands.
    stands: Place,
}

/// The types whose components were made so far.
#[derive(Debug, Drop)]
pub(crate) struct Rows<'s, 't> {
    alloc: Global,
    scopes: &'s Scopes<'t>,
    states: Vec<State>,
    looks: usize,
}

impl<'s, 't> Rows<'s, 't> {
    /// None are made yet.
    pub(crate) fn new(
        alloc: Global,
        scopes: &'s Scopes<'t>,
        syntax: &Syntax<'t>,
    ) -> Result<Rows<'s, 't>, ModuleError> {
        let mut states = Vec::new(alloc);
        for _ in &syntax.types {
            states.push(State::New)?;
        }
        let looks = syntax.components.len().saturating_mul(MOST_DEPTH);
        Ok(Rows {
            alloc,
            scopes,
            states,
            looks,
        })
    }

    /// Makes the components of all types.
    pub(crate) fn make_all(&mut self, syntax: &mut Syntax<'t>) -> Result<(), ModuleError> {
        for at in 0..self.states.len() {
            self.make(syntax, at, MOST_DEPTH)?;
        }
        Ok(())
    }

    /// Sets whether the components of a type are made.
    fn set_state(&mut self, at: usize, state: State) {
        if let Some(old) = self.states.get_mut(at) {
            *old = state;
        }
    }

    /// Makes the components of a type, unless they are made or it has none. No two have the same name.
    #[cycle(rows)]
    fn make(
        &mut self,
        syntax: &mut Syntax<'t>,
        at: usize,
        depth: usize,
    ) -> Result<(), ModuleError> {
        let (Some(entry), Some(state)) = (syntax.types.get(at), self.states.get(at)) else {
            return Ok(());
        };
        let entry = *entry;
        let Some(row) = row_of(entry.syntax) else {
            return Ok(());
        };
        match *state {
            State::New => (),
            State::Going => return Err(entry.place.error(Wrong::LeadsToItself)),
            State::Done => return Ok(()),
        }
        if depth == 0 {
            return Err(entry.place.error(Wrong::Depth));
        }
        self.set_state(at, State::Going);
        let list = self.standing(syntax, entry, row, depth - 1)?;
        check_names(self.alloc, &list)?;
        let made = self.put(syntax, entry, row, &list)?;
        set_row(syntax, at, made);
        self.set_state(at, State::Done);
        Ok(())
    }

    /// The components of a type, with those of other types where COMPONENTS OF stands.
    #[cycle(rows)]
    fn standing(
        &mut self,
        syntax: &mut Syntax<'t>,
        entry: TypeEntry<'t>,
        row: Row,
        depth: usize,
    ) -> Result<Vec<Standing<'t>>, ModuleError> {
        let written = Vec::from_slice(self.alloc, part(&syntax.components, row.span))?;
        let mut list = Vec::new(self.alloc);
        for component in &written {
            match component.appearance {
                Appearance::Components => {
                    self.insert(syntax, entry, &mut list, *component, depth)?;
                }
                _ => list.push(Standing {
                    component: standing_as(*component, component.is_addition),
                    stands: component.place,
                })?,
            }
        }
        Ok(list)
    }

    /// Puts the components of another type behind others, but for its extension additions (X.680 25.5).
    #[cycle(rows)]
    fn insert(
        &mut self,
        syntax: &mut Syntax<'t>,
        entry: TypeEntry<'t>,
        list: &mut Vec<Standing<'t>>,
        component: Component<'t>,
        depth: usize,
    ) -> Result<(), ModuleError> {
        let of = self.components_of(syntax, entry, component)?;
        self.make(syntax, of, depth)?;
        let Some(row) = row_at(syntax, of) else {
            return Ok(());
        };
        for inner in part(&syntax.components, row.span) {
            if self.looks == 0 {
                return Err(component.place.error(Wrong::Repeated));
            }
            self.looks -= 1;
            if !inner.is_addition {
                list.push(Standing {
                    component: standing_as(*inner, component.is_addition),
                    stands: component.place,
                })?;
            }
        }
        Ok(())
    }

    /// The type whose components stand there: a set in a set, and else a sequence (X.680 25.5, 27.2).
    fn components_of(
        &self,
        syntax: &Syntax<'t>,
        entry: TypeEntry<'t>,
        component: Component<'t>,
    ) -> Result<usize, ModuleError> {
        let (is_set, wrong) = match entry.syntax {
            TypeSyntax::Sequence(_) => (false, Wrong::NotSequence),
            TypeSyntax::Set(_) => (true, Wrong::NotSet),
            _ => return Err(component.place.error(Wrong::Expected("the name of an arm"))),
        };
        let mut at = component.of;
        for _ in 0..MOST_DEPTH {
            let Some(of) = syntax.types.get(at) else {
                break;
            };
            match of.syntax {
                TypeSyntax::Sequence(_) if !is_set => return Ok(at),
                TypeSyntax::Set(_) if is_set => return Ok(at),
                _ => (),
            }
            match self.behind(syntax, of)? {
                Some(inner) => at = inner,
                None => break,
            }
        }
        Err(component.place.error(wrong))
    }

    /// The type in the tag or the constraint of another one, or the one that its name stands for. A parameter has none.
    fn behind(
        &self,
        syntax: &Syntax<'t>,
        of: &TypeEntry<'t>,
    ) -> Result<Option<usize>, ModuleError> {
        let (from, name) = match of.syntax {
            TypeSyntax::Tagged(_, _, inner) => return Ok(Some(inner)),
            TypeSyntax::Within(inner, _, _) => return Ok(Some(inner)),
            TypeSyntax::Reference(from, name) => (from, name),
            _ => return Ok(None),
        };
        if from.is_none() && self.scopes.is_parameter(of.module, of.owner, name) {
            return Ok(None);
        }
        match self.scopes.resolve(syntax, of.module, from, name) {
            None => Err(self.scopes.unknown(of.module, name, of.place)),
            Some(assignment) => match assignment.meaning {
                Meaning::Type(inner) => Ok(Some(inner)),
                _ => Ok(None),
            },
        }
    }

    /// Puts components behind those of other types, with tags by their order where they get these.
    fn put(
        &self,
        syntax: &mut Syntax<'t>,
        entry: TypeEntry<'t>,
        row: Row,
        list: &[Standing<'t>],
    ) -> Result<Row, ModuleError> {
        let mut made = Vec::new(self.alloc);
        if row.is_automatic {
            tag_all(syntax, entry, list, &mut made)?;
        } else {
            for standing in list {
                made.push(standing.component)?;
            }
        }
        let span = put_all(&mut syntax.components, &made)?;
        Ok(Row { span, ..row })
    }
}

/// The components or arms of a type that has some.
fn row_of(syntax: TypeSyntax<'_>) -> Option<Row> {
    match syntax {
        TypeSyntax::Sequence(row) => Some(row),
        TypeSyntax::Set(row) => Some(row),
        TypeSyntax::Choice(row) => Some(row),
        _ => None,
    }
}

/// The components or arms of the type at a place.
fn row_at(syntax: &Syntax<'_>, at: usize) -> Option<Row> {
    row_of(syntax.types.get(at)?.syntax)
}

/// Gives the type at a place other components or arms.
fn set_row(syntax: &mut Syntax<'_>, at: usize, row: Row) {
    if let Some(entry) = syntax.types.get_mut(at) {
        match entry.syntax {
            TypeSyntax::Sequence(_) => entry.syntax = TypeSyntax::Sequence(row),
            TypeSyntax::Set(_) => entry.syntax = TypeSyntax::Set(row),
            TypeSyntax::Choice(_) => entry.syntax = TypeSyntax::Choice(row),
            _ => (),
        }
    }
}

/// A component as it stands in a type. Between extension marks it may be left out.
fn standing_as<'t>(component: Component<'t>, is_addition: bool) -> Component<'t> {
    let appearance = match component.appearance {
        Appearance::Required if is_addition => Appearance::Optional,
        other => other,
    };
    Component {
        appearance,
        is_addition,
        ..component
    }
}

/// Tells whether the components of a type have different names.
fn check_names(alloc: Global, list: &[Standing<'_>]) -> Result<(), ModuleError> {
    let mut names = Vec::new(alloc);
    for standing in list {
        names.push((standing.component.name, standing.stands))?;
    }
    check_distinct(alloc, &names)
}

/// How many components stand before and behind the extension marks.
fn count_root(list: &[Standing<'_>]) -> u32 {
    let mut count = 0u32;
    for standing in list {
        if !standing.component.is_addition {
            count = count.saturating_add(1);
        }
    }
    count
}

/// Gives components tags by their order: first those before and behind the extension marks (X.680 25.9).
fn tag_all<'t>(
    syntax: &mut Syntax<'t>,
    entry: TypeEntry<'t>,
    list: &[Standing<'t>],
    made: &mut Vec<Component<'t>>,
) -> Result<(), ModuleError> {
    let mut root = 0u32;
    let mut addition = count_root(list);
    for standing in list {
        if standing.component.is_addition {
            made.push(with_tag(syntax, entry, *standing, addition)?)?;
            addition = addition.saturating_add(1);
        } else {
            made.push(with_tag(syntax, entry, *standing, root)?)?;
            root = root.saturating_add(1);
        }
    }
    Ok(())
}

/// A component with this context-specific tag, which is implicit, and stands for tags that the component has.
fn with_tag<'t>(
    syntax: &mut Syntax<'t>,
    entry: TypeEntry<'t>,
    standing: Standing<'t>,
    number: u32,
) -> Result<Component<'t>, ModuleError> {
    let component = standing.component;
    let tag = TypeTag { class: 2, number };
    let of = syntax.types.len();
    syntax.types.push(TypeEntry {
        name: component.name,
        place: standing.stands,
        syntax: TypeSyntax::Tagged(tag, TagMode::Implicit, component.of),
        ..entry
    })?;
    Ok(Component { of, ..component })
}
