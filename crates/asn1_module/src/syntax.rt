//! What the texts say: flat lists whose entries name one another by their places.

use crate::mistake::Place;
use asn1_schema::schema::{TextKind, TypeTag};
use std::alloc::{AllocError, Global};

/// The entries of a list from one place to another.
#[derive(Debug, Clone, Copy, PartialEq, Eq)]
pub struct Span {
    /// The first one.
    pub start: usize,
    /// The one behind the last one.
    pub end: usize,
}

/// Whether a tag stands before a value's own one or in its place (X.680 31.2).
#[derive(Debug, Clone, Copy, PartialEq, Eq)]
pub enum TagMode {
    /// EXPLICIT.
    Explicit,
    /// IMPLICIT.
    Implicit,
}

/// The components of a sequence or a set, or the arms of a choice.
#[derive(Debug, Clone, Copy)]
pub struct Row {
    /// Which they are.
    pub span: Span,
    /// Whether unknown elements may follow: there is an extension mark.
    pub is_open: bool,
    /// Whether they get tags by their order (X.680 25.2).
    pub is_automatic: bool,
}

/// A type, as it is written.
#[derive(Debug, Clone, Copy)]
pub enum TypeSyntax<'t> {
    /// BOOLEAN.
    Boolean,
    /// NULL.
    Null,
    /// INTEGER with named numbers.
    Integer(Span),
    /// ENUMERATED: listed numbers, and whether there is an extension mark.
    Enumerated(Span, bool),
    /// BIT STRING, with named bits if any are.
    Bits(Span),
    /// OCTET STRING.
    Octets,
    /// OBJECT IDENTIFIER.
    Identifier,
    /// RELATIVE-OID.
    RelativeIdentifier,
    /// A character string.
    Text(TextKind),
    /// UTCTime.
    UtcTime,
    /// GeneralizedTime.
    GeneralizedTime,
    /// ANY, or an open type.
    Any,
    /// SEQUENCE: components.
    Sequence(Row),
    /// SET: components.
    Set(Row),
    /// CHOICE: arms.
    Choice(Row),
    /// SEQUENCE OF.
    SequenceOf(usize),
    /// SET OF.
    SetOf(usize),
    /// A type with a tag.
    Tagged(TypeTag, TagMode, usize),
    /// A type with ranges of its numbers, or of its sizes.
    Within(usize, bool, Span),
    /// The type of a name, in a module where one is named.
    Reference(Option<&'t str>, &'t str),
    /// A field of a class.
    ClassField(&'t str, &'t str),
}

/// A type, with the name that it has.
#[derive(Debug, Clone, Copy)]
pub struct TypeEntry<'t> {
    /// Its name, or none.
    pub name: &'t str,
    /// The name that is assigned where it stands.
    pub owner: &'t str,
    /// The module in which it stands.
    pub module: usize,
    /// Where it stands.
    pub place: Place,
    /// What it is.
    pub syntax: TypeSyntax<'t>,
}

/// A value, as it is written.
#[derive(Debug, Clone, Copy)]
pub enum ValueSyntax<'t> {
    /// A number.
    Integer(i128),
    /// TRUE or FALSE.
    Boolean(bool),
    /// NULL.
    Null,
    /// The value of a name, in a module where one is named.
    Reference(Option<&'t str>, &'t str),
    /// `{}`.
    Empty,
    /// `{ iso 3 }`: the values of an object identifier's arcs, or one name.
    Arcs(Span),
    /// `{ a, b }`: names of bits.
    Names(Span),
    /// Characters, with their quotation marks.
    Text(&'t [u8]),
    /// `'01'B`.
    Bits(&'t [u8]),
    /// `'0F'H`.
    Hexadecimal(&'t [u8]),
    /// Another one, which is not read.
    Unread,
}

/// A value.
#[derive(Debug, Clone, Copy)]
pub struct ValueEntry<'t> {
    /// The module in which it stands.
    pub module: usize,
    /// The name of its type, where it is assigned and its type is a name alone.
    pub governor: &'t str,
    /// Where it stands.
    pub place: Place,
    /// What it is.
    pub syntax: ValueSyntax<'t>,
}

/// Whether a component may be left out.
#[derive(Debug, Clone, Copy)]
pub enum Appearance {
    /// It may not.
    Required,
    /// It may.
    Optional,
    /// It may, and then has the value at this place.
    Default(usize),
    /// The components of the type stand here.
    Components,
}

/// A component of a sequence, or an arm of a choice.
#[derive(Debug, Clone, Copy)]
pub struct Component<'t> {
    /// Its name.
    pub name: &'t str,
    /// Where it stands.
    pub place: Place,
    /// The place of its type.
    pub of: usize,
    /// Whether it may be left out.
    pub appearance: Appearance,
    /// Whether it stands between extension marks.
    pub is_addition: bool,
}

/// A named or listed number, or a named bit.
#[derive(Debug, Clone, Copy)]
pub struct NamedNumber<'t> {
    /// Its name.
    pub name: &'t str,
    /// Where it stands.
    pub place: Place,
    /// The place of the value of its number. A listed number may have none.
    pub number: Option<usize>,
    /// Whether it stands behind an extension mark.
    pub is_addition: bool,
}

/// An end of a range.
#[derive(Debug, Clone, Copy)]
pub enum End {
    /// MIN or MAX.
    Open,
    /// The value at this place.
    Value(usize),
}

/// A range of numbers or sizes.
#[derive(Debug, Clone, Copy)]
pub struct NumberRange {
    /// The least one.
    pub lower: End,
    /// The most one.
    pub upper: End,
}

/// What a name is assigned to.
#[derive(Debug, Clone, Copy)]
pub enum Meaning {
    /// The type at a place.
    Type(usize),
    /// The value at a place.
    Value(usize),
    /// A class, an object, a set or a macro, which is not read.
    Other,
}

/// An assignment.
#[derive(Debug, Clone, Copy)]
pub struct Assignment<'t> {
    /// The module in which it stands.
    pub module: usize,
    /// The name.
    pub name: &'t str,
    /// Where it stands.
    pub place: Place,
    /// What the name is assigned to.
    pub meaning: Meaning,
}

/// The names that a module imports, each with the name of the module that it is from.
#[derive(Debug, Clone, Copy)]
pub struct Import<'t> {
    /// The module that imports.
    pub module: usize,
    /// The name.
    pub name: &'t str,
    /// The name of the other module.
    pub from: &'t str,
    /// Where it stands.
    pub place: Place,
}

/// A module.
#[derive(Debug, Clone, Copy)]
pub struct ModuleEntry<'t> {
    /// Its name.
    pub name: &'t str,
    /// Where it stands.
    pub place: Place,
}

/// A field of a class that is an OBJECT IDENTIFIER, or a parameter of an assignment.
#[derive(Debug, Clone, Copy)]
pub struct Known<'t> {
    /// The module in which it stands.
    pub module: usize,
    /// The name of the class or of the assignment.
    pub of: &'t str,
    /// The name of the field or of the parameter.
    pub name: &'t str,
}

/// What is left out of a table.
#[derive(Debug, Clone, Copy, PartialEq, Eq)]
pub enum LeftOut {
    /// A constraint, which is not judged.
    Constraint,
    /// A field of a class or a parameter, which is read as any element.
    Open,
    /// A default value: the component is read as one that may be left out.
    Default,
    /// The components behind the second extension mark follow with no unknown elements before them.
    Middle,
}

/// A note: what is left out of a table, and where.
#[derive(Debug, Clone, Copy, PartialEq, Eq)]
pub struct Note {
    /// What is left out.
    pub what: LeftOut,
    /// Where.
    pub place: Place,
}

/// All that the texts say.
#[derive(Debug, Drop)]
pub struct Syntax<'t> {
    /// The modules.
    pub modules: Vec<ModuleEntry<'t>>,
    /// The imports of all modules.
    pub imports: Vec<Import<'t>>,
    /// The assignments of all modules.
    pub assignments: Vec<Assignment<'t>>,
    /// The types.
    pub types: Vec<TypeEntry<'t>>,
    /// The values.
    pub values: Vec<ValueEntry<'t>>,
    /// The places of the values that stand in braces.
    pub arcs: Vec<usize>,
    /// The components and arms.
    pub components: Vec<Component<'t>>,
    /// The named numbers and bits.
    pub numbers: Vec<NamedNumber<'t>>,
    /// The ranges.
    pub ranges: Vec<NumberRange>,
    /// The fields of classes that are object identifiers.
    pub identifiers: Vec<Known<'t>>,
    /// The parameters of assignments.
    pub parameters: Vec<Known<'t>>,
    /// What is left out.
    pub notes: Vec<Note>,
}

/// The entries of a list from one place to another, or none where they are not there.
pub fn part<T>(list: &[T], span: Span) -> &[T] {
    let Some((front, _)) = list.split_at_checked(span.end) else {
        return &[];
    };
    match front.split_at_checked(span.start) {
        None => &[],
        Some((_, part)) => part,
    }
}

/// Puts entries behind a list, and answers where they stand.
pub(crate) fn put_all<T: Copy>(list: &mut Vec<T>, entries: &[T]) -> Result<Span, AllocError> {
    let start = list.len();
    list.extend_from_slice(entries)?;
    Ok(Span {
        start,
        end: list.len(),
    })
}

impl<'t> Syntax<'t> {
    /// Nothing.
    pub fn new(alloc: Global) -> Syntax<'t> {
        Syntax {
            modules: Vec::new(alloc),
            imports: Vec::new(alloc),
            assignments: Vec::new(alloc),
            types: Vec::new(alloc),
            values: Vec::new(alloc),
            arcs: Vec::new(alloc),
            components: Vec::new(alloc),
            numbers: Vec::new(alloc),
            ranges: Vec::new(alloc),
            identifiers: Vec::new(alloc),
            parameters: Vec::new(alloc),
            notes: Vec::new(alloc),
        }
    }
}
