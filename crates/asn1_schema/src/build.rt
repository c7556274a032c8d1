//! A table that is built with names, as ASN.1 reads.
ghost use Rattle.std.specs.Prelude.{IsTrue, slice_set, slice_get, List, [], ◌∷◌, ◌++◌, ◌≡◌, length};
ghost use Rattle.std.specs.Prelude.{◌<◌, ◌≤◌, ◌||◌, ◌&&◌, not, IfOk, IfErr, OnOk, OnErr, map, Some, None, true, false};
ghost use Rattle.asn1_schema.specs.declared.schema.Kind.TheVariants as kinds;
ghost use Rattle.asn1_schema.specs.declared.build.BuildError.TheVariants as errors;
ghost use Rattle.asn1_schema.specs.Build.{IsOf, IsLike, IsSequenceRow, IsSetRow, IsEnumerated, universal, text_number};
ghost use Rattle.asn1_schema.specs.Build.{AreParts};
ghost use Rattle.asn1_schema.specs.Grammar.{has_tag, is_tag_of};
ghost use Rattle.asn1_schema.specs.Build.{IsPresence, IsAnyNode, IsBounded, IsChoiceOf, IsPutUnderTag, IsDefined};
ghost use Rattle.asn1_schema.specs.Build.{Puts, PutsOpen, IsOpenChoice, Decides, AreTagsOf, has_tag_at};
ghost use Rattle.asn1_schema.specs.Build.{last_places, may_be_omitted};
ghost use Rattle.asn1_schema.specs.BuildNames.{ArePlaced, HasName, HasLabels, HasPartNames, HasArms, AreNamesAt};
ghost use Rattle.asn1_schema.specs.BuildNames.{PutsNames, PutsOpenNames, AreUnder, AreDefined, HasNamesBeside};
ghost use Rattle.asn1_schema.specs.declared.schema.TimeKind.TheVariants as times;

use crate::copies::{bounded, copied_tags, retagged};
use crate::names::{PartName, TypeNames, label};
use crate::parts::{ChoiceArm, Omission, Part};
use crate::schema::{Field, Kind, Node, Presence, Tags, TextKind, TimeKind, TypeTag};
use crate::tagged::node_at;
use crate::unions::{all_others, one_tag, united};
use std::alloc::{AllocError, AllocFailed, Global};

/// Why a type is not put into a table.
#[derive(Debug, Clone, Copy, PartialEq, Eq, thiserror::Error)]
pub enum BuildError {
    /// Memory ran out.
    #[error("out of memory")]
    OutOfMemory,
    /// The type leads to a place at which the table has no type.
    #[error("the type leads to a place where there is none")]
    MissingType,
    /// The place is not that of a type that is declared and not yet defined.
    #[error("the type is not declared, or is defined already")]
    NotDeclared,
    /// The type is declared, and not yet defined.
    #[error("the type is declared, and not yet defined")]
    NotDefined,
    /// An arm may have any tag but some, so that no unknown arm is told from it.
    #[error("an unknown arm is not told from the arms")]
    OpenArm,
}

impl<T: Drop> From<AllocFailed<T>> for BuildError {
    ghost from_gives = { λ _ e. e ≡ errors.OutOfMemory };

    fn from(_failed: AllocFailed<T>) -> BuildError {
        BuildError::OutOfMemory
    }
}

impl From<AllocError> for BuildError {
    ghost from_gives = { λ _ e. e ≡ errors.OutOfMemory };

    fn from(_error: AllocError) -> BuildError {
        BuildError::OutOfMemory
    }
}

/// A table of types, and their names beside it.
///
/// Each call puts one type, or with an extension mark two, behind those that are there, and answers its place. A type
/// leads to places that were answered before. What leads to itself goes through a type that is declared first.
#[derive(Debug, Drop)]
pub struct Schema<'n> {
    alloc: Global,
    /// The types, which the decoders take.
    pub nodes: Vec<Node>,
    /// The names of each type, at the same place.
    pub names: Vec<TypeNames<'n>>,
}

/// The number of the universal tag of a character string (X.680 table 8).
fn text_number(kind: TextKind) -> u32
    ensures { result ≡ text_number kind }
{
    match kind {
        TextKind::Utf8 => 12,
        TextKind::Numeric => 18,
        TextKind::Printable => 19,
        TextKind::Teletex => 20,
        TextKind::Videotex => 21,
        TextKind::Ia5 => 22,
        TextKind::Graphic => 25,
        TextKind::Visible => 26,
        TextKind::General => 27,
        TextKind::Universal => 28,
        TextKind::Bmp => 30,
        TextKind::Descriptor => 7,
    }
}

/// A universal tag.
pub fn universal(number: u32) -> TypeTag
    ensures { result ≡ universal number }
{
    TypeTag { class: 0, number }
}

/// An application tag.
pub fn application(number: u32) -> TypeTag
    ensures class { result.class ≡ 1 }
    ensures number { result.number ≡ number }
{
    TypeTag { class: 1, number }
}

/// A context-specific tag.
pub fn context(number: u32) -> TypeTag
    ensures class { result.class ≡ 2 }
    ensures number { result.number ≡ number }
{
    TypeTag { class: 2, number }
}

/// A private tag.
pub fn private(number: u32) -> TypeTag
    ensures class { result.class ≡ 3 }
    ensures number { result.number ≡ number }
{
    TypeTag { class: 3, number }
}

/// The numbers of labels.
fn listed_numbers(alloc: Global, labels: &[PartName<'_>]) -> Result<Vec<i128>, BuildError>
    ensures { IfOk result (λ ns. ns.items ≡ map (λ l. l.number) labels.now) }
{
    Ok(labels.iter().map(|label| label.number).collect(alloc)?)
}

/// The field that a part is.
fn field_of(alloc: Global, part: &Part<'_>) -> Result<Field, BuildError>
    ensures of { IfOk result (λ field. field.of ≡ part.now.of) }
    ensures presence { IfOk result (λ field. IsPresence part.now.omission field.presence) }
{
    let presence = match part.omission {
        Omission::Never => Presence::Required,
        Omission::Allowed => Presence::Optional,
        Omission::Default(octets) => Presence::Default(Vec::from_slice(alloc, octets)?),
    };
    Ok(Field {
        of: part.of,
        presence,
    })
}

/// The fields that parts are.
fn fields_of(alloc: Global, parts: &[Part<'_>]) -> Result<Vec<Field>, BuildError>
    ensures { IfOk result (λ fields. AreParts parts.now fields.items) }
{
    let mut fields = Vec::new(alloc);
    for part in parts {
        let field = field_of(alloc, part)?;
        fields.push(field)?;
    }
    Ok(fields)
}

/// The names of parts, with their places.
fn part_names<'n>(alloc: Global, parts: &[Part<'n>]) -> Result<Vec<PartName<'n>>, BuildError>
    ensures { IfOk result (λ labels. ArePlaced (map (λ p. p.name.now) parts.now) labels.items) }
{
    let mut names = Vec::new(alloc);
    for (place, part) in parts.iter().enumerate() {
        names.push(label(part.name, place as i128))?;
    }
    Ok(names)
}

/// The names of arms, with their places.
fn arm_names<'n>(alloc: Global, arms: &[ChoiceArm<'n>]) -> Result<Vec<PartName<'n>>, BuildError>
    ensures { IfOk result (λ labels. ArePlaced (map (λ a. a.name.now) arms.now) labels.items) }
{
    let mut names = Vec::new(alloc);
    for (place, arm) in arms.iter().enumerate() {
        names.push(label(arm.name, place as i128))?;
    }
    Ok(names)
}

/// The places of the types of arms.
fn arm_places(alloc: Global, arms: &[ChoiceArm<'_>]) -> Result<Vec<usize>, BuildError>
    ensures { IfOk result (λ places. places.items ≡ map (λ a. a.of) arms.now) }
{
    Ok(arms.iter().map(|arm| arm.of).collect(alloc)?)
}

impl<'n> Schema<'n> {
    /// A table with no types.
    pub fn new(alloc: Global) -> Schema<'n>
        ensures nodes { result.nodes.items ≡ [] }
        ensures names { result.names.items ≡ [] }
    {
        Schema {
            alloc,
            nodes: Vec::new(alloc),
            names: Vec::new(alloc),
        }
    }

    /// Puts a type behind the others, and answers its place.
    fn put(&mut self, node: Node, names: TypeNames<'n>) -> Result<usize, BuildError>
        ensures place { IfOk result (λ place. place ≡ length self.old.nodes.items) }
        ensures nodes { OnOk result (self.new.nodes.items ≡ self.old.nodes.items ++ node ∷ []) }
        ensures names { OnOk result (self.new.names.items ≡
            self.old.names.items ++ names.entry ∷ []) }
        ensures err { OnErr result (self.new.nodes.items ≡ self.old.nodes.items) }
        ensures names_err { OnErr result (self.new.names.items ≡ self.old.names.items) }
        ensures named { HasNamesBeside self.old → HasNamesBeside self.new }
    {
        let place = self.nodes.len();
        self.names.push(names)?;
        match self.nodes.push(node) {
            Ok(()) => Ok(place),
            Err(_) => {
                let _ = self.names.pop();
                Err(BuildError::OutOfMemory)
            }
        }
    }

    /// Puts a type with this tag behind the others.
    fn tagged(
        &mut self,
        name: &'n str,
        tag: TypeTag,
        kind: Kind,
        labels: Vec<PartName<'n>>,
    ) -> Result<usize, BuildError>
        ensures puts { Puts self.old.nodes.items self.new.nodes.items (IsOf tag kind) result }
        ensures names { PutsNames self.old self.new (HasLabels name.now labels.entry.items) result }
        ensures named { HasNamesBeside self.old → HasNamesBeside self.new }
    {
        let tags = one_tag(self.alloc, tag)?;
        self.put(Node { tags, kind }, TypeNames { name, labels })
    }

    /// Puts a type with a universal tag and without names of parts behind the others.
    fn plain(&mut self, name: &'n str, number: u32, kind: Kind) -> Result<usize, BuildError>
        ensures puts { Puts self.old.nodes.items self.new.nodes.items
            (IsOf (universal number) kind) result }
        ensures names { PutsNames self.old self.new (HasName name.now) result }
        ensures named { HasNamesBeside self.old → HasNamesBeside self.new }
    {
        let labels = Vec::new(self.alloc);
        self.tagged(name, universal(number), kind, labels)
    }

    /// BOOLEAN.
    pub fn boolean(&mut self, name: &'n str) -> Result<usize, BuildError>
        ensures puts { Puts self.old.nodes.items self.new.nodes.items
            (IsOf (universal 1) kinds.Boolean) result }
        ensures names { PutsNames self.old self.new (HasName name.now) result }
        ensures named { HasNamesBeside self.old → HasNamesBeside self.new }
    {
        self.plain(name, 1, Kind::Boolean)
    }

    /// NULL.
    pub fn null(&mut self, name: &'n str) -> Result<usize, BuildError>
        ensures puts { Puts self.old.nodes.items self.new.nodes.items
            (IsOf (universal 5) kinds.Null) result }
        ensures names { PutsNames self.old self.new (HasName name.now) result }
        ensures named { HasNamesBeside self.old → HasNamesBeside self.new }
    {
        self.plain(name, 5, Kind::Null)
    }

    /// INTEGER, with numbers that have names, or with none.
    pub fn integer(&mut self, name: &'n str, numbers: &[PartName<'n>]) -> Result<usize, BuildError>
        ensures puts { Puts self.old.nodes.items self.new.nodes.items
            (IsOf (universal 2) kinds.Integer) result }
        ensures names { PutsNames self.old self.new (HasLabels name.now numbers.now) result }
        ensures named { HasNamesBeside self.old → HasNamesBeside self.new }
    {
        let labels = Vec::from_slice(self.alloc, numbers)?;
        self.tagged(name, universal(2), Kind::Integer, labels)
    }

    /// ENUMERATED: one of these numbers; any, where it is extensible.
    pub fn enumerated(
        &mut self,
        name: &'n str,
        numbers: &[PartName<'n>],
        extensible: bool,
    ) -> Result<usize, BuildError>
        ensures puts { Puts self.old.nodes.items self.new.nodes.items
            (IsLike (universal 10) (IsEnumerated numbers.now extensible)) result }
        ensures names { PutsNames self.old self.new (HasLabels name.now numbers.now) result }
        ensures named { HasNamesBeside self.old → HasNamesBeside self.new }
    {
        let labels = Vec::from_slice(self.alloc, numbers)?;
        let listed = listed_numbers(self.alloc, numbers)?;
        self.tagged(
            name,
            universal(10),
            Kind::Enumerated(listed, extensible),
            labels,
        )
    }

    /// BIT STRING, with no names.
    pub fn bits(&mut self, name: &'n str) -> Result<usize, BuildError>
        ensures puts { Puts self.old.nodes.items self.new.nodes.items
            (IsOf (universal 3) (kinds.Bits false)) result }
        ensures names { PutsNames self.old self.new (HasName name.now) result }
        ensures named { HasNamesBeside self.old → HasNamesBeside self.new }
    {
        self.plain(name, 3, Kind::Bits(false))
    }

    /// BIT STRING whose bits have names: zeros at its end say nothing (X.680 22.7).
    pub fn named_bits(&mut self, name: &'n str, bits: &[PartName<'n>]) -> Result<usize, BuildError>
        ensures puts { Puts self.old.nodes.items self.new.nodes.items
            (IsOf (universal 3) (kinds.Bits true)) result }
        ensures names { PutsNames self.old self.new (HasLabels name.now bits.now) result }
        ensures named { HasNamesBeside self.old → HasNamesBeside self.new }
    {
        let labels = Vec::from_slice(self.alloc, bits)?;
        self.tagged(name, universal(3), Kind::Bits(true), labels)
    }

    /// OCTET STRING.
    pub fn octets(&mut self, name: &'n str) -> Result<usize, BuildError>
        ensures puts { Puts self.old.nodes.items self.new.nodes.items
            (IsOf (universal 4) kinds.Octets) result }
        ensures names { PutsNames self.old self.new (HasName name.now) result }
        ensures named { HasNamesBeside self.old → HasNamesBeside self.new }
    {
        self.plain(name, 4, Kind::Octets)
    }

    /// OBJECT IDENTIFIER.
    pub fn identifier(&mut self, name: &'n str) -> Result<usize, BuildError>
        ensures puts { Puts self.old.nodes.items self.new.nodes.items
            (IsOf (universal 6) (kinds.Identifier false)) result }
        ensures names { PutsNames self.old self.new (HasName name.now) result }
        ensures named { HasNamesBeside self.old → HasNamesBeside self.new }
    {
        self.plain(name, 6, Kind::Identifier(false))
    }

    /// RELATIVE-OID.
    pub fn relative_identifier(&mut self, name: &'n str) -> Result<usize, BuildError>
        ensures puts { Puts self.old.nodes.items self.new.nodes.items
            (IsOf (universal 13) (kinds.Identifier true)) result }
        ensures names { PutsNames self.old self.new (HasName name.now) result }
        ensures named { HasNamesBeside self.old → HasNamesBeside self.new }
    {
        self.plain(name, 13, Kind::Identifier(true))
    }

    /// A character string.
    pub fn text(&mut self, name: &'n str, kind: TextKind) -> Result<usize, BuildError>
        ensures puts { Puts self.old.nodes.items self.new.nodes.items
            (IsOf (universal (text_number kind)) (kinds.Text kind)) result }
        ensures names { PutsNames self.old self.new (HasName name.now) result }
        ensures named { HasNamesBeside self.old → HasNamesBeside self.new }
    {
        self.plain(name, text_number(kind), Kind::Text(kind))
    }

    /// UTCTime.
    pub fn utc_time(&mut self, name: &'n str) -> Result<usize, BuildError>
        ensures puts { Puts self.old.nodes.items self.new.nodes.items
            (IsOf (universal 23) (kinds.Time times.Utc)) result }
        ensures names { PutsNames self.old self.new (HasName name.now) result }
        ensures named { HasNamesBeside self.old → HasNamesBeside self.new }
    {
        self.plain(name, 23, Kind::Time(TimeKind::Utc))
    }

    /// GeneralizedTime.
    pub fn generalized_time(&mut self, name: &'n str) -> Result<usize, BuildError>
        ensures puts { Puts self.old.nodes.items self.new.nodes.items
            (IsOf (universal 24) (kinds.Time times.Generalized)) result }
        ensures names { PutsNames self.old self.new (HasName name.now) result }
        ensures named { HasNamesBeside self.old → HasNamesBeside self.new }
    {
        self.plain(name, 24, Kind::Time(TimeKind::Generalized))
    }

    /// Tells whether the table has a type at this place.
    fn check_place(&self, of: usize) -> Result<(), BuildError>
        ensures ok { OnOk result (of < length self.now.nodes.items) }
        ensures err { IfErr result (λ e. e ≡ errors.MissingType) }
        ensures missing { OnErr result (length self.now.nodes.items ≤ of) }
    {
        if of < self.nodes.len() {
            Ok(())
        } else {
            Err(BuildError::MissingType)
        }
    }

    /// SEQUENCE OF values of the type at a place.
    pub fn sequence_of(&mut self, name: &'n str, of: usize) -> Result<usize, BuildError>
        ensures leads { IfOk result (λ _. of < length self.old.nodes.items) }
        ensures puts { Puts self.old.nodes.items self.new.nodes.items
            (IsOf (universal 16) (kinds.SequenceOf of)) result }
        ensures names { PutsNames self.old self.new (HasName name.now) result }
        ensures named { HasNamesBeside self.old → HasNamesBeside self.new }
    {
        self.check_place(of)?;
        self.plain(name, 16, Kind::SequenceOf(of))
    }

    /// SET OF values of the type at a place.
    pub fn set_of(&mut self, name: &'n str, of: usize) -> Result<usize, BuildError>
        ensures leads { IfOk result (λ _. of < length self.old.nodes.items) }
        ensures puts { Puts self.old.nodes.items self.new.nodes.items
            (IsOf (universal 17) (kinds.SetOf of)) result }
        ensures names { PutsNames self.old self.new (HasName name.now) result }
        ensures named { HasNamesBeside self.old → HasNamesBeside self.new }
    {
        self.check_place(of)?;
        self.plain(name, 17, Kind::SetOf(of))
    }

    /// A value of the type at a place, in an element with this tag.
    pub fn explicit(&mut self, tag: TypeTag, of: usize) -> Result<usize, BuildError>
        ensures leads { IfOk result (λ _. of < length self.old.nodes.items) }
        ensures puts { Puts self.old.nodes.items self.new.nodes.items
            (IsOf tag (kinds.Explicit of)) result }
        ensures names { PutsNames self.old self.new (HasName []) result }
        ensures named { HasNamesBeside self.old → HasNamesBeside self.new }
    {
        self.check_place(of)?;
        let labels = Vec::new(self.alloc);
        self.tagged("", tag, Kind::Explicit(of), labels)
    }

    /// Tells whether the table has the types of all fields.
    fn check_parts(&self, parts: &[Part<'_>]) -> Result<(), BuildError> {
        if parts.iter().all(|part| part.of < self.nodes.len()) {
            Ok(())
        } else {
            Err(BuildError::MissingType)
        }
    }

    /// SEQUENCE of these fields, and of unknown elements of the type at a place, if one is given.
    fn row(
        &mut self,
        name: &'n str,
        parts: &[Part<'n>],
        unknown: Option<usize>,
    ) -> Result<usize, BuildError>
        ensures puts { Puts self.old.nodes.items self.new.nodes.items
            (IsLike (universal 16) (IsSequenceRow parts.now unknown)) result }
        ensures names { PutsNames self.old self.new (HasPartNames name.now parts.now) result }
        ensures named { HasNamesBeside self.old → HasNamesBeside self.new }
    {
        self.check_parts(parts)?;
        let labels = part_names(self.alloc, parts)?;
        let fields = fields_of(self.alloc, parts)?;
        self.tagged(name, universal(16), Kind::Sequence(fields, unknown), labels)
    }

    /// SEQUENCE of these fields.
    pub fn sequence(&mut self, name: &'n str, parts: &[Part<'n>]) -> Result<usize, BuildError>
        ensures puts { Puts self.old.nodes.items self.new.nodes.items
            (IsLike (universal 16) (IsSequenceRow parts.now None)) result }
        ensures names { PutsNames self.old self.new (HasPartNames name.now parts.now) result }
        ensures named { HasNamesBeside self.old → HasNamesBeside self.new }
    {
        self.row(name, parts, None)
    }

    /// The tags with those of the type at a place, if there is one.
    fn with_type(&self, tags: Tags, of: usize) -> Result<Tags, BuildError>
        ensures { IfOk result (Decides (λ id. has_tag tags id ||
            has_tag_at self.now.nodes.items id of)) }
    {
        match node_at(&self.nodes, of) {
            None => Ok(tags),
            Some(node) => united(self.alloc, tags, &node.tags),
        }
    }

    /// The tags with those of a field that may be left out; and none behind a field that may not.
    fn with_part(&self, tags: Tags, part: &Part<'_>) -> Result<Tags, BuildError>
        ensures { IfOk result (Decides (λ id. may_be_omitted part.now &&
            (has_tag tags id || has_tag_at self.now.nodes.items id part.now.of))) }
    {
        match part.omission {
            Omission::Never => Ok(Tags::Among(Vec::new(self.alloc))),
            Omission::Allowed => self.with_type(tags, part.of),
            Omission::Default(_) => self.with_type(tags, part.of),
        }
    }

    /// The tags of the fields at the end that may all be left out.
    fn last_tags(&self, parts: &[Part<'_>]) -> Result<Tags, BuildError>
        ensures { IfOk result (AreTagsOf self.now.nodes.items (last_places parts.now)) }
    {
        let mut tags = Tags::Among(Vec::new(self.alloc));
        for part in parts {
            tags = self.with_part(tags, part)?;
        }
        Ok(tags)
    }

    /// Any one element but with these tags, and but the end of contents octets.
    fn unknown(&mut self, tags: Tags) -> Result<usize, BuildError>
        ensures puts { Puts self.old.nodes.items self.new.nodes.items
            (λ node. (node.kind ≡ kinds.Any) ×
            Decides (λ id. not (has_tag tags id || is_tag_of id (universal 0))) node.tags)
            result }
        ensures names { PutsNames self.old self.new (HasName []) result }
        ensures named { HasNamesBeside self.old → HasNamesBeside self.new }
    {
        let end = one_tag(self.alloc, universal(0))?;
        let node = Node {
            tags: all_others(united(self.alloc, tags, &end)?),
            kind: Kind::Any,
        };
        let labels = Vec::new(self.alloc);
        self.put(node, TypeNames { name: "", labels })
    }

    /// SEQUENCE of these fields and an extension mark. Unknown elements may follow, but none with the tag of a field at
    /// the end that may be left out.
    pub fn open_sequence(&mut self, name: &'n str, parts: &[Part<'n>]) -> Result<usize, BuildError>
        ensures puts { PutsOpen self.old.nodes.items self.new.nodes.items (last_places parts.now)
            (λ unknown. IsLike (universal 16) (IsSequenceRow parts.now (Some unknown))) result }
        ensures names { PutsOpenNames self.old self.new (HasPartNames name.now parts.now) result }
        ensures named { HasNamesBeside self.old → HasNamesBeside self.new }
    {
        let tags = self.last_tags(parts)?;
        let unknown = self.unknown(tags)?;
        self.row(name, parts, Some(unknown))
    }

    /// SET of these fields, and of unknown elements of the type at a place, if one is given.
    fn set_row(
        &mut self,
        name: &'n str,
        parts: &[Part<'n>],
        unknown: Option<usize>,
    ) -> Result<usize, BuildError>
        ensures puts { Puts self.old.nodes.items self.new.nodes.items
            (IsLike (universal 17) (IsSetRow parts.now unknown)) result }
        ensures names { PutsNames self.old self.new (HasPartNames name.now parts.now) result }
        ensures named { HasNamesBeside self.old → HasNamesBeside self.new }
    {
        self.check_parts(parts)?;
        let labels = part_names(self.alloc, parts)?;
        let fields = fields_of(self.alloc, parts)?;
        self.tagged(name, universal(17), Kind::Set(fields, unknown), labels)
    }

    /// SET of these fields, which stand in any order by BER, and by DER in the order of their tags.
    pub fn set(&mut self, name: &'n str, parts: &[Part<'n>]) -> Result<usize, BuildError>
        ensures puts { Puts self.old.nodes.items self.new.nodes.items
            (IsLike (universal 17) (IsSetRow parts.now None)) result }
        ensures names { PutsNames self.old self.new (HasPartNames name.now parts.now) result }
        ensures named { HasNamesBeside self.old → HasNamesBeside self.new }
    {
        self.set_row(name, parts, None)
    }

    /// The tags of all fields.
    fn all_tags(&self, parts: &[Part<'_>]) -> Result<Tags, BuildError>
        ensures { IfOk result (AreTagsOf self.now.nodes.items (map (λ p. p.of) parts.now)) }
    {
        let mut tags = Tags::Among(Vec::new(self.alloc));
        for part in parts {
            self.check_place(part.of)?;
            tags = self.with_type(tags, part.of)?;
        }
        Ok(tags)
    }

    /// SET of these fields and an extension mark. Unknown elements may be there, but none with the tag of a field.
    pub fn open_set(&mut self, name: &'n str, parts: &[Part<'n>]) -> Result<usize, BuildError>
        ensures puts { PutsOpen self.old.nodes.items self.new.nodes.items (map (λ p. p.of) parts.now)
            (λ unknown. IsLike (universal 17) (IsSetRow parts.now (Some unknown))) result }
        ensures names { PutsOpenNames self.old self.new (HasPartNames name.now parts.now) result }
        ensures named { HasNamesBeside self.old → HasNamesBeside self.new }
    {
        let tags = self.all_tags(parts)?;
        let unknown = self.unknown(tags)?;
        self.set_row(name, parts, Some(unknown))
    }

    /// Any one element but the end of contents octets.
    pub fn any(&mut self, name: &'n str) -> Result<usize, BuildError>
        ensures puts { Puts self.old.nodes.items self.new.nodes.items IsAnyNode result }
        ensures names { PutsNames self.old self.new (HasName name.now) result }
        ensures named { HasNamesBeside self.old → HasNamesBeside self.new }
    {
        let ends = Vec::from_array(self.alloc, [universal(0)])?;
        let node = Node {
            tags: Tags::AllBut(ends),
            kind: Kind::Any,
        };
        let labels = Vec::new(self.alloc);
        self.put(node, TypeNames { name, labels })
    }

    /// The type at a place, where its number or its size is within bounds.
    pub fn within(
        &mut self,
        name: &'n str,
        of: usize,
        lower: Option<i128>,
        upper: Option<i128>,
    ) -> Result<usize, BuildError>
        ensures puts { Puts self.old.nodes.items self.new.nodes.items
            (IsBounded self.old.nodes.items of lower upper) result }
        ensures names { PutsNames self.old self.new (HasName name.now) result }
        ensures named { HasNamesBeside self.old → HasNamesBeside self.new }
    {
        let Some(node) = node_at(&self.nodes, of) else {
            return Err(BuildError::MissingType);
        };
        let tags = copied_tags(self.alloc, &node.tags)?;
        let kind = Kind::Within(of, lower, upper);
        let labels = Vec::new(self.alloc);
        self.put(Node { tags, kind }, TypeNames { name, labels })
    }

    /// The tags of arms.
    fn arm_tags(&self, arms: &[ChoiceArm<'_>]) -> Result<Tags, BuildError>
        ensures { IfOk result (AreTagsOf self.now.nodes.items (map (λ a. a.of) arms.now)) }
    {
        let mut tags = Tags::Among(Vec::new(self.alloc));
        for arm in arms {
            self.check_place(arm.of)?;
            tags = self.with_type(tags, arm.of)?;
        }
        Ok(tags)
    }

    /// CHOICE among the types of these arms, with their tags.
    pub fn choice(&mut self, name: &'n str, arms: &[ChoiceArm<'n>]) -> Result<usize, BuildError>
        ensures puts { Puts self.old.nodes.items self.new.nodes.items
            (λ node. IsChoiceOf (map (λ a. a.of) arms.now) node.kind ×
            AreTagsOf self.old.nodes.items (map (λ a. a.of) arms.now) node.tags) result }
        ensures names { PutsNames self.old self.new (HasArms name.now arms.now) result }
        ensures named { HasNamesBeside self.old → HasNamesBeside self.new }
    {
        let tags = self.arm_tags(arms)?;
        let labels = arm_names(self.alloc, arms)?;
        let kind = Kind::Choice(arm_places(self.alloc, arms)?);
        self.put(Node { tags, kind }, TypeNames { name, labels })
    }

    /// CHOICE among the types of these arms and an extension mark: the last arm is any element that no other arm is.
    pub fn open_choice(
        &mut self,
        name: &'n str,
        arms: &[ChoiceArm<'n>],
    ) -> Result<usize, BuildError>
        ensures puts { PutsOpen self.old.nodes.items self.new.nodes.items
            (map (λ a. a.of) arms.now) (IsOpenChoice (map (λ a. a.of) arms.now)) result }
        ensures names { PutsOpenNames self.old self.new (HasArms name.now arms.now) result }
        ensures named { HasNamesBeside self.old → HasNamesBeside self.new }
    {
        let tags = self.arm_tags(arms)?;
        if matches!(&tags, Tags::AllBut(_)) {
            return Err(BuildError::OpenArm);
        }
        let labels = arm_names(self.alloc, arms)?;
        let mut places = arm_places(self.alloc, arms)?;
        let ends = Vec::from_array(self.alloc, [universal(0)])?;
        let unknown = self.unknown(tags)?;
        places.push(unknown)?;
        let node = Node {
            tags: Tags::AllBut(ends),
            kind: Kind::Choice(places),
        };
        self.put(node, TypeNames { name, labels })
    }

    /// Declares a type with this tag, which is defined later. A table is not sound before.
    pub fn declare(&mut self, name: &'n str, tag: TypeTag) -> Result<usize, BuildError>
        ensures puts { Puts self.old.nodes.items self.new.nodes.items
            (IsOf tag (kinds.Within (length self.old.nodes.items) None None)) result }
        ensures names { PutsNames self.old self.new (HasName name.now) result }
        ensures named { HasNamesBeside self.old → HasNamesBeside self.new }
    {
        let own = self.nodes.len();
        let labels = Vec::new(self.alloc);
        self.tagged(name, tag, Kind::Within(own, None, None), labels)
    }

    /// The names of the type at a place.
    fn names_of(&self, of: usize) -> Result<TypeNames<'n>, BuildError>
        ensures { IfOk result (AreNamesAt self.now.names.items of) }
    {
        match self.names.get(of) {
            None => Err(BuildError::MissingType),
            Some(names) => Ok(TypeNames {
                name: names.name,
                labels: Vec::from_slice(self.alloc, &names.labels)?,
            }),
        }
    }

    /// The type at a place under another tag (IMPLICIT). A choice and any element get the tag round them (X.680
    /// 31.2.7). Bounds come with the type that they are on.
    #[cycle(implicit)]
    pub fn implicit(&mut self, tag: TypeTag, of: usize) -> Result<usize, BuildError>
        ensures grows { (more : List Node) × (self.new.nodes.items ≡ self.old.nodes.items ++ more) }
        ensures ok { IfOk result (λ place.
            IsPutUnderTag self.old.nodes.items self.new.nodes.items place tag of) }
        ensures names_grow { (more : List TypeNames) ×
            (self.new.names.items ≡ self.old.names.items ++ more) }
        ensures names { OnOk result (AreUnder self.old.names.items self.new.names.items of) }
        ensures named { HasNamesBeside self.old → HasNamesBeside self.new }
    {
        let Some(node) = node_at(&self.nodes, of) else {
            return Err(BuildError::MissingType);
        };
        match bounded(&node.kind) {
            None => {
                let kind = retagged(self.alloc, of, of, &node.kind)?;
                let TypeNames { name, labels } = self.names_of(of)?;
                self.tagged(name, tag, kind, labels)
            }
            Some((inner, lower, upper)) => {
                if inner >= of {
                    return Err(BuildError::NotDefined);
                }
                let TypeNames { name, labels } = self.names_of(of)?;
                let place = self.implicit(tag, inner)?;
                self.tagged(name, tag, Kind::Within(place, lower, upper), labels)
            }
        }
    }

    /// Tells whether the type at a place is declared with its names, and not yet defined.
    fn is_declared(&self, place: usize) -> bool
        ensures nodes { IsTrue result → place < length self.now.nodes.items }
        ensures names { IsTrue result → place < length self.now.names.items }
    {
        if place >= self.names.len() {
            return false;
        }
        match node_at(&self.nodes, place) {
            None => false,
            Some(node) => matches!(&node.kind, Kind::Within(inner, _, _) if *inner == place),
        }
    }

    /// Puts the kind of a type into the table.
    fn set_kind(&mut self, place: usize, kind: Kind)
        requires { place < length self.old.nodes.items }
        ensures nodes { (declared : Node) → slice_get self.old.nodes.items place ≡ Some declared →
            self.new.nodes.items ≡
            slice_set self.old.nodes.items place (record declared { kind = kind }) }
        ensures names { self.new.names.items ≡ self.old.names.items }
        ensures named { HasNamesBeside self.old → HasNamesBeside self.new }
    {
        self.nodes[place].kind = kind;
    }

    /// Puts the labels of a type into the names.
    fn set_labels(&mut self, place: usize, labels: Vec<PartName<'n>>)
        requires { place < length self.old.names.items }
        ensures nodes { self.new.nodes.items ≡ self.old.nodes.items }
        ensures names { (own : TypeNames) → slice_get self.old.names.items place ≡ Some own →
            self.new.names.items ≡
            slice_set self.old.names.items place (record own { labels = labels.entry }) }
        ensures named { HasNamesBeside self.old → HasNamesBeside self.new }
    {
        self.names[place].labels = labels;
    }

    /// Defines a declared type as the type at another place under its own tag, as [`Schema::implicit`] does.
    ///
    /// Bounds are not defined so: what they are on is declared, and they are put on it.
    pub fn define(&mut self, place: usize, of: usize) -> Result<(), BuildError>
        ensures ok { OnOk result (IsDefined self.old.nodes.items self.new.nodes.items place of) }
        ensures err { OnErr result (self.new.nodes.items ≡ self.old.nodes.items) }
        ensures names { OnOk result
            (AreDefined self.old.names.items self.new.names.items place of) }
        ensures names_err { OnErr result (self.new.names.items ≡ self.old.names.items) }
        ensures named { HasNamesBeside self.old → HasNamesBeside self.new }
    {
        if !self.is_declared(place) {
            return Err(BuildError::NotDeclared);
        }
        let Some(node) = node_at(&self.nodes, of) else {
            return Err(BuildError::MissingType);
        };
        if bounded(&node.kind).is_some() {
            return Err(BuildError::NotDefined);
        }
        let kind = retagged(self.alloc, of, of, &node.kind)?;
        let TypeNames { labels, .. } = self.names_of(of)?;
        self.set_kind(place, kind);
        self.set_labels(place, labels);
        Ok(())
    }
}
