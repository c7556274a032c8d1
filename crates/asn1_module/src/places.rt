//! The place of each type in the table.

use crate::mistake::{ModuleError, Place, Wrong};
use crate::reader::MOST_DEPTH;
use crate::syntax::{LeftOut, Meaning, Note, Row, Span, TagMode, TypeEntry, TypeSyntax, part};
use crate::values::Texts;
use asn1_schema::build::{Schema, universal};
use asn1_schema::parts::arm;
use asn1_schema::schema::{Kind, TypeTag};
use std::alloc::Global;

/// Whether a type has its place.
#[derive(Debug, Clone, Copy)]
pub(crate) enum Slot {
    /// Not yet.
    New,
    /// It is being made.
    Going,
    /// It has this one.
    Done(usize),
}

/// What a declared type is defined as.
#[derive(Debug, Clone, Copy)]
pub(crate) enum Body {
    /// These components.
    Sequence(Row),
    /// The same, in any order.
    Set(Row),
    /// Members of the type of an entry.
    SequenceOf(usize),
    /// The same.
    SetOf(usize),
    /// A value of the type of an entry in an element.
    Explicit(usize),
    /// A value of the type at a place of the table in an element.
    Around(usize),
}

/// A declared type.
#[derive(Debug, Clone, Copy)]
pub(crate) struct Declared {
    /// Its place in the table.
    pub place: usize,
    /// Where it stands in the texts.
    pub stands: Place,
    /// What it is defined as.
    pub body: Body,
}

/// What bounds are on.
#[derive(Debug, Clone, Copy, PartialEq, Eq)]
enum Measure {
    /// Numbers.
    Number,
    /// Sizes.
    Size,
    /// Nothing.
    Nothing,
}

/// The types that were given a place so far.
#[derive(Debug, Drop)]
pub(crate) struct Places<'s, 't> {
    /// The allocator.
    pub alloc: Global,
    /// The texts.
    pub texts: Texts<'s, 't>,
    /// The place of each entry.
    pub slots: Vec<Slot>,
    /// The declared types, by their places.
    pub declared: Vec<Declared>,
    /// What is left out.
    pub notes: Vec<Note>,
}

impl<'s, 't> Places<'s, 't> {
    /// No places yet.
    pub(crate) fn new(alloc: Global, texts: Texts<'s, 't>) -> Result<Places<'s, 't>, ModuleError> {
        let mut slots = Vec::new(alloc);
        for _ in &texts.syntax.types {
            slots.push(Slot::New)?;
        }
        Ok(Places {
            alloc,
            texts,
            slots,
            declared: Vec::new(alloc),
            notes: Vec::new(alloc),
        })
    }

    /// Gives each type a place.
    pub(crate) fn place_all(&mut self, schema: &mut Schema<'t>) -> Result<(), ModuleError> {
        for at in 0..self.slots.len() {
            self.place(schema, at, MOST_DEPTH)?;
        }
        Ok(())
    }

    /// The place of an entry that has one.
    pub(crate) fn placed(&self, at: usize) -> Option<usize> {
        match self.slots.get(at) {
            Some(Slot::Done(place)) => Some(*place),
            _ => None,
        }
    }

    /// Sets whether an entry has its place.
    fn set_slot(&mut self, at: usize, slot: Slot) {
        if let Some(old) = self.slots.get_mut(at) {
            *old = slot;
        }
    }

    /// Gives an entry a place, unless it has one, and answers it.
    #[cycle(places)]
    fn place(
        &mut self,
        schema: &mut Schema<'t>,
        at: usize,
        depth: usize,
    ) -> Result<usize, ModuleError> {
        let Some(entry) = self.texts.syntax.types.get(at) else {
            return Err(Place { text: 0, octet: 0 }.error(Wrong::NotDefined));
        };
        let entry = *entry;
        match self.slots.get(at) {
            Some(Slot::Done(place)) => return Ok(*place),
            Some(Slot::Going) => return Err(entry.place.error(Wrong::LeadsToItself)),
            _ => (),
        }
        if depth == 0 {
            return Err(entry.place.error(Wrong::Depth));
        }
        self.set_slot(at, Slot::Going);
        let place = self.make(schema, entry, depth - 1)?;
        self.set_slot(at, Slot::Done(place));
        Ok(place)
    }

    /// Makes the type of an entry, and answers its place.
    #[cycle(places)]
    fn make(
        &mut self,
        schema: &mut Schema<'t>,
        entry: TypeEntry<'t>,
        depth: usize,
    ) -> Result<usize, ModuleError> {
        match entry.syntax {
            TypeSyntax::Choice(row) => self.make_choice(schema, entry, row, depth),
            TypeSyntax::Tagged(tag, TagMode::Implicit, of) => {
                if self.is_open(of) {
                    return self.declare(schema, entry, tag, Body::Explicit(of));
                }
                let inner = self.place(schema, of, depth)?;
                let place = self.retag(schema, (entry.place, entry.name), tag, inner, depth)?;
                Ok(place)
            }
            TypeSyntax::Within(of, is_size, ranges) => {
                let inner = self.place(schema, of, depth)?;
                self.bound(schema, entry, inner, is_size, ranges)
            }
            TypeSyntax::Reference(from, name) => {
                match self.referred(entry, from, name)? {
                    None => self.open_type(schema, entry),
                    Some(of) => self.place(schema, of, depth),
                }
            }
            _ => self.make_leaf(schema, entry),
        }
    }

    /// Makes a choice.
    #[cycle(places)]
    fn make_choice(
        &mut self,
        schema: &mut Schema<'t>,
        entry: TypeEntry<'t>,
        row: Row,
        depth: usize,
    ) -> Result<usize, ModuleError> {
        let components = part(&self.texts.syntax.components, row.span);
        let mut arms = Vec::new(self.alloc);
        for component in components {
            let of = self.place(schema, component.of, depth)?;
            arms.push(arm(component.name, of))?;
        }
        let made = if row.is_open {
            schema.open_choice(entry.name, &arms)
        } else {
            schema.choice(entry.name, &arms)
        };
        built(entry.place, made)
    }

    /// The entry that a name stands for, or none if it is a parameter.
    fn referred(
        &self,
        entry: TypeEntry<'t>,
        from: Option<&'t str>,
        name: &'t str,
    ) -> Result<Option<usize>, ModuleError> {
        let scopes = self.texts.scopes;
        if from.is_none() && scopes.is_parameter(entry.module, entry.owner, name) {
            return Ok(None);
        }
        match scopes.resolve(self.texts.syntax, entry.module, from, name) {
            None => Err(scopes.unknown(entry.module, name, entry.place)),
            Some(assignment) => match assignment.meaning {
                Meaning::Type(of) => Ok(Some(of)),
                _ => Err(entry.place.error(Wrong::NotType)),
            },
        }
    }

    /// Whether an entry is a choice or any element, so that a tag stands round it (X.680 31.2.7).
    fn is_open(&self, of: usize) -> bool {
        let texts = self.texts;
        let mut at = of;
        for _ in 0..MOST_DEPTH {
            let Some(entry) = texts.syntax.types.get(at) else {
                return false;
            };
            match entry.syntax {
                TypeSyntax::Choice(_) => return true,
                TypeSyntax::Any => return true,
                TypeSyntax::Within(inner, _, _) => at = inner,
                TypeSyntax::Reference(from, name) => match self.referred(*entry, from, name) {
                    Ok(Some(inner)) => at = inner,
                    Ok(None) => return true,
                    Err(_) => return false,
                },
                _ => return false,
            }
        }
        false
    }

    /// Makes any element of an open type, and notes it.
    fn open_type(
        &mut self,
        schema: &mut Schema<'t>,
        entry: TypeEntry<'t>,
    ) -> Result<usize, ModuleError> {
        self.note(LeftOut::Open, entry.place)?;
        built(entry.place, schema.any(entry.name))
    }

    /// Notes that something is left out of the table.
    pub(crate) fn note(&mut self, what: LeftOut, place: Place) -> Result<(), ModuleError> {
        self.notes.push(Note { what, place })?;
        Ok(())
    }

    /// Makes a type that leads to none whose place is asked for.
    fn make_leaf(
        &mut self,
        schema: &mut Schema<'t>,
        entry: TypeEntry<'t>,
    ) -> Result<usize, ModuleError> {
        let list = universal(16);
        match entry.syntax {
            TypeSyntax::Sequence(row) => self.declare(schema, entry, list, Body::Sequence(row)),
            TypeSyntax::Set(row) => self.declare(schema, entry, universal(17), Body::Set(row)),
            TypeSyntax::SequenceOf(of) => self.declare(schema, entry, list, Body::SequenceOf(of)),
            TypeSyntax::SetOf(of) => self.declare(schema, entry, universal(17), Body::SetOf(of)),
            TypeSyntax::Tagged(tag, _, of) => self.declare(schema, entry, tag, Body::Explicit(of)),
            TypeSyntax::ClassField(class, field) => {
                if self.is_identifier(entry, class, field) {
                    return built(entry.place, schema.identifier(entry.name));
                }
                self.open_type(schema, entry)
            }
            TypeSyntax::Integer(span) => {
                let numbers = self.texts.named_numbers(self.alloc, span)?;
                built(entry.place, schema.integer(entry.name, &numbers))
            }
            TypeSyntax::Enumerated(span, is_open) => {
                let numbers = self.texts.listed_numbers(self.alloc, span)?;
                built(
                    entry.place,
                    schema.enumerated(entry.name, &numbers, is_open),
                )
            }
            TypeSyntax::Bits(span) => {
                let bits = self.texts.named_numbers(self.alloc, span)?;
                if bits.is_empty() {
                    return built(entry.place, schema.bits(entry.name));
                }
                built(entry.place, schema.named_bits(entry.name, &bits))
            }
            _ => make_plain(schema, entry),
        }
    }

    /// Whether the field of a class is an OBJECT IDENTIFIER.
    fn is_identifier(&self, entry: TypeEntry<'t>, class: &str, field: &str) -> bool {
        if class == "TYPE-IDENTIFIER" || class == "ABSTRACT-SYNTAX" {
            return field == "&id";
        }
        let texts = self.texts;
        match texts
            .scopes
            .resolve(texts.syntax, entry.module, None, class)
        {
            None => false,
            Some(named) => texts.scopes.is_identifier(named.module, named.name, field),
        }
    }

    /// Declares a type.
    fn declare(
        &mut self,
        schema: &mut Schema<'t>,
        entry: TypeEntry<'t>,
        tag: TypeTag,
        body: Body,
    ) -> Result<usize, ModuleError> {
        let place = built(entry.place, schema.declare(entry.name, tag))?;
        self.declared.push(Declared {
            place,
            stands: entry.place,
            body,
        })?;
        Ok(place)
    }

    /// What the declared type at a place of the table is defined as.
    fn body_of(&self, place: usize) -> Option<Body> {
        match self
            .declared
            .binary_search_by(|declared| declared.place.cmp(&place))
        {
            Ok(at) => self.declared.get(at).map(|declared| declared.body),
            Err(_) => None,
        }
    }

    /// Puts the type at a place of the table under another tag.
    fn retag(
        &mut self,
        schema: &mut Schema<'t>,
        named: (Place, &'t str),
        tag: TypeTag,
        of: usize,
        depth: usize,
    ) -> Result<usize, ModuleError> {
        if depth == 0 {
            return Err(named.0.error(Wrong::Depth));
        }
        let body = match schema.nodes.get(of).map(|node| &node.kind) {
            Some(Kind::Within(inner, lower, upper)) => {
                let (inner, lower, upper) = (*inner, *lower, *upper);
                if inner != of {
                    let place = self.retag(schema, named, tag, inner, depth - 1)?;
                    let made = schema.within(named.1, place, lower, upper);
                    return built(named.0, made);
                }
                self.body_of(of)
            }
            Some(Kind::Choice(_)) => Some(Body::Around(of)),
            Some(Kind::Any) => Some(Body::Around(of)),
            _ => None,
        };
        match body {
            None => {
                let place = built(named.0, schema.implicit(tag, of))?;
                set_name(schema, place, named.1);
                Ok(place)
            }
            Some(body) => {
                let place = built(named.0, schema.declare(named.1, tag))?;
                let stands = named.0;
                self.declared.push(Declared {
                    place,
                    stands,
                    body,
                })?;
                Ok(place)
            }
        }
    }

    /// What bounds on the type at a place of the table are on, and the place behind bounds that are there.
    fn measure(&self, schema: &Schema<'t>, place: usize) -> (Measure, usize) {
        let of = behind_bounds(schema, place);
        let measure = match schema.nodes.get(of).map(|node| &node.kind) {
            Some(Kind::Integer) => Measure::Number,
            Some(Kind::Octets) => Measure::Size,
            Some(Kind::Text(_)) => Measure::Size,
            Some(Kind::Bits(false)) => Measure::Size,
            Some(Kind::Within(_, _, _)) => match self.body_of(of) {
                Some(Body::SequenceOf(_)) => Measure::Size,
                Some(Body::SetOf(_)) => Measure::Size,
                _ => Measure::Nothing,
            },
            _ => Measure::Nothing,
        };
        (measure, of)
    }

    /// The least and the most of ranges, where numbers have the names that the type at a place gives them.
    fn ends(
        &self,
        schema: &Schema<'t>,
        of: usize,
        ranges: Span,
    ) -> Result<Option<(Option<i128>, Option<i128>)>, ModuleError> {
        match schema.names.get(of) {
            None => self.texts.hull(self.alloc, ranges, &[]),
            Some(names) => self.texts.hull(self.alloc, ranges, &names.labels),
        }
    }

    /// Puts bounds on the type at a place of the table. Others are noted.
    fn bound(
        &mut self,
        schema: &mut Schema<'t>,
        entry: TypeEntry<'t>,
        inner: usize,
        is_size: bool,
        ranges: Span,
    ) -> Result<usize, ModuleError> {
        let (measure, of) = self.measure(schema, inner);
        let wanted = if is_size {
            Measure::Size
        } else {
            Measure::Number
        };
        if measure == wanted {
            if let Some((lower, upper)) = self.ends(schema, of, ranges)? {
                return built(entry.place, schema.within(entry.name, inner, lower, upper));
            }
        }
        self.note(LeftOut::Constraint, entry.place)?;
        Ok(inner)
    }
}

/// Gives the type at a place of the table a name.
fn set_name<'t>(schema: &mut Schema<'t>, place: usize, name: &'t str) {
    if let Some(names) = schema.names.get_mut(place) {
        names.name = name;
    }
}

/// The answer of a table, whose refusal stands here.
pub(crate) fn built<T: Drop>(
    place: Place,
    answer: Result<T, asn1_schema::build::BuildError>,
) -> Result<T, ModuleError> {
    match answer {
        Ok(made) => Ok(made),
        Err(error) => Err(place.not_built(error)),
    }
}

/// The place behind the bounds of the type at a place.
pub(crate) fn behind_bounds(schema: &Schema<'_>, place: usize) -> usize {
    let mut of = place;
    for _ in 0..MOST_DEPTH {
        match schema.nodes.get(of).map(|node| &node.kind) {
            Some(Kind::Within(inner, _, _)) => of = *inner,
            _ => break,
        }
    }
    of
}

/// Makes a type that has no parts.
fn make_plain<'t>(schema: &mut Schema<'t>, entry: TypeEntry<'t>) -> Result<usize, ModuleError> {
    let name = entry.name;
    let made = match entry.syntax {
        TypeSyntax::Boolean => schema.boolean(name),
        TypeSyntax::Null => schema.null(name),
        TypeSyntax::Octets => schema.octets(name),
        TypeSyntax::Identifier => schema.identifier(name),
        TypeSyntax::RelativeIdentifier => schema.relative_identifier(name),
        TypeSyntax::Text(kind) => schema.text(name, kind),
        TypeSyntax::UtcTime => schema.utc_time(name),
        TypeSyntax::GeneralizedTime => schema.generalized_time(name),
        _ => schema.any(name),
    };
    built(entry.place, made)
}
