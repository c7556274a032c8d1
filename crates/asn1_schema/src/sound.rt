//! Whether a table is sound: its optional fields, the fields of sets and arms are told apart by their tags (X.680 25.6,
//! 27.3, 29.3).
ghost use Rattle.std.specs.Prelude.{◌≡◌, ◌||◌, ◌&&◌, not, is_none};
ghost use Rattle.asn1_schema.specs.Sound as spec;

use crate::schema::{Field, Kind, Node, Presence, Tags, TypeTag};
use crate::tagged::node_at;
use crate::unsound::{Shared, TypeFault, Unsound};

/// Whether the tag is one of these.
pub(crate) fn is_among(tag: TypeTag, others: &[TypeTag]) -> bool
    ensures { result ≡ spec.is_among tag others.now }
{
    others.iter().any(|other| other.class == tag.class && other.number == tag.number)
}

/// Whether each of the tags is one of the others.
fn are_among(tags: &[TypeTag], others: &[TypeTag]) -> bool
    ensures { result ≡ spec.are_among tags.now others.now }
{
    tags.iter().all(|tag| is_among(*tag, others))
}

/// Whether none of the tags is one of the others.
fn none_among(tags: &[TypeTag], others: &[TypeTag]) -> bool
    ensures { result ≡ spec.none_among tags.now others.now }
{
    tags.iter().all(|tag| !is_among(*tag, others))
}

/// The first of the tags that is one of the others.
fn first_among(tags: &[TypeTag], others: &[TypeTag]) -> Option<TypeTag>
    ensures { is_none result ≡ spec.none_among tags.now others.now }
{
    for tag in tags {
        if is_among(*tag, others) {
            return Some(*tag);
        }
    }
    None
}

/// The first of the tags that is none of the others.
fn first_left(tags: &[TypeTag], others: &[TypeTag]) -> Option<TypeTag>
    ensures { is_none result ≡ spec.are_among tags.now others.now }
{
    for tag in tags {
        if !is_among(*tag, others) {
            return Some(*tag);
        }
    }
    None
}

/// A tag that is shared, if there is one.
fn shared_tag(tag: Option<TypeTag>) -> Option<Shared>
    ensures { is_none result ≡ is_none tag }
{
    match tag {
        Some(tag) => Some(Shared::Tag(tag)),
        None => None,
    }
}

/// What tags and others have in common.
fn meeting(tags: &Tags, others: &Tags) -> Option<Shared>
    ensures { is_none result ≡ spec.tags_disjoint tags.now others.now }
{
    match tags {
        Tags::Among(xs) => match others {
            Tags::Among(ys) => shared_tag(first_among(xs, ys)),
            Tags::AllBut(ys) => shared_tag(first_left(xs, ys)),
        },
        Tags::AllBut(xs) => match others {
            Tags::Among(ys) => shared_tag(first_left(ys, xs)),
            Tags::AllBut(_) => Some(Shared::Many),
        },
    }
}

/// Whether each of the tags is one of the others.
fn are_within(tags: &Tags, others: &Tags) -> bool
    ensures { result ≡ spec.are_within tags.now others.now }
{
    match tags {
        Tags::Among(xs) => match others {
            Tags::Among(ys) => are_among(xs, ys),
            Tags::AllBut(ys) => none_among(xs, ys),
        },
        Tags::AllBut(xs) => match others {
            Tags::Among(_) => false,
            Tags::AllBut(ys) => are_among(ys, xs),
        },
    }
}

/// Whether the tags hold those of the type at a place, if there is one.
fn holds(table: &[Node], tags: &Tags, of: usize) -> bool
    ensures { result ≡ spec.holds tags.now (spec.node_at table.now of) }
{
    match node_at(table, of) {
        None => true,
        Some(node) => are_within(&node.tags, tags),
    }
}

/// Whether a field may be left out.
fn may_be_left_out(presence: &Presence) -> bool
    ensures { result ≡ spec.may_be_left_out presence.now }
{
    match presence {
        Presence::Required => false,
        Presence::Optional => true,
        Presence::Default(_) => true,
    }
}

/// Whether a field is told from what follows it: each is, or each that may be left out.
fn is_told(every: bool, presence: &Presence) -> bool
    ensures { result ≡ spec.is_told every presence.now }
{
    every || may_be_left_out(presence)
}

/// What tags have in common with the type at a place, if there is one.
fn meeting_at(table: &[Node], tags: &Tags, of: usize) -> Option<Shared>
    ensures { is_none result ≡ spec.apart_from tags.now (spec.node_at table.now of) }
{
    match node_at(table, of) {
        None => None,
        Some(node) => meeting(tags, &node.tags),
    }
}

/// What may follow a field and has a tag in common with it.
#[derive(Debug, Clone, Copy)]
struct Follower {
    /// Its place among the fields behind that one, or none where it is an unknown element.
    place: Option<usize>,
    /// What they have in common.
    shared: Shared,
}

/// What tags have in common with the unknown elements behind an extension mark.
fn unknown_meeting(table: &[Node], tags: &Tags, unknown: Option<usize>) -> Option<Follower>
    ensures { is_none result ≡ spec.apart_from_unknown table.now tags.now unknown }
{
    match unknown {
        None => None,
        Some(of) => match meeting_at(table, tags, of) {
            None => None,
            Some(shared) => Some(Follower {
                place: None,
                shared,
            }),
        },
    }
}

/// What an element with one of these tags has in common with those that may begin the fields, or with any of theirs.
fn next_meeting(
    every: bool,
    table: &[Node],
    unknown: Option<usize>,
    tags: &Tags,
    fields: &[Field],
) -> Option<Follower>
    ensures { is_none result ≡ spec.apart_from_next every table.now unknown tags.now fields.now }
{
    let mut left = fields;
    while let Some((field, others)) = left.split_first() {
        if let Some(shared) = meeting_at(table, tags, field.of) {
            let place = Some(fields.len().saturating_sub(left.len()));
            return Some(Follower { place, shared });
        }
        if !is_told(every, &field.presence) {
            return None;
        }
        left = others;
    }
    unknown_meeting(table, tags, unknown)
}

/// What a field that is told from what may follow it has in common with that.
fn field_meeting(
    every: bool,
    table: &[Node],
    unknown: Option<usize>,
    field: &Field,
    others: &[Field],
) -> Option<Follower>
    ensures { is_none result ≡ (not (spec.is_told every field.now.presence)
        || spec.field_unambiguous every table.now unknown (spec.node_at table.now field.now.of)
        others.now) }
{
    if !is_told(every, &field.presence) {
        return None;
    }
    match node_at(table, field.of) {
        None => None,
        Some(node) => next_meeting(every, table, unknown, &node.tags, others),
    }
}

/// A field at a place, and what may follow it and has a tag in common with it.
fn follower_fault(field: usize, follower: Follower) -> TypeFault {
    match follower.place {
        Some(behind) => TypeFault::Fields(
            field,
            field.saturating_add(behind).saturating_add(1),
            follower.shared,
        ),
        None => TypeFault::Unknown(field, follower.shared),
    }
}

/// The first field that is to be told from what may follow it, and is not.
fn fields_fault(
    every: bool,
    table: &[Node],
    unknown: Option<usize>,
    fields: &[Field],
) -> Option<TypeFault>
    ensures { is_none result ≡ spec.fields_unambiguous every table.now unknown fields.now }
{
    let mut left = fields;
    while let Some((field, others)) = left.split_first() {
        if let Some(follower) = field_meeting(every, table, unknown, field, others) {
            let place = fields.len().saturating_sub(left.len());
            return Some(follower_fault(place, follower));
        }
        left = others;
    }
    None
}

/// The first of the types that has one of these tags: its place, and what they have in common.
fn arm_meeting(table: &[Node], tags: &Tags, arms: &[usize]) -> Option<(usize, Shared)>
    ensures { is_none result ≡ spec.apart_from_arms table.now tags.now arms.now }
{
    for (place, arm) in arms.iter().enumerate() {
        if let Some(shared) = meeting_at(table, tags, *arm) {
            return Some((place, shared));
        }
    }
    None
}

/// The first of the other arms from which an arm is not told, if its type is there.
fn arm_follower(table: &[Node], arm: usize, others: &[usize]) -> Option<(usize, Shared)>
    ensures { is_none result ≡ spec.arm_unambiguous table.now (spec.node_at table.now arm)
        others.now }
{
    match node_at(table, arm) {
        None => None,
        Some(node) => arm_meeting(table, &node.tags, others),
    }
}

/// The first two arms that are not told apart.
fn arms_fault(table: &[Node], arms: &[usize]) -> Option<TypeFault>
    ensures { is_none result ≡ spec.arms_unambiguous table.now arms.now }
{
    let mut left = arms;
    while let Some((arm, others)) = left.split_first() {
        if let Some((behind, shared)) = arm_follower(table, *arm, others) {
            let place = arms.len().saturating_sub(left.len());
            let other = place.saturating_add(behind).saturating_add(1);
            return Some(TypeFault::Arms(place, other, shared));
        }
        left = others;
    }
    None
}

/// The first arm of which the tags do not hold all.
fn arm_not_held(table: &[Node], tags: &Tags, arms: &[usize]) -> Option<usize>
    ensures { is_none result ≡ spec.arms_included table.now tags.now arms.now }
{
    for (place, arm) in arms.iter().enumerate() {
        if !holds(table, tags, *arm) {
            return Some(place);
        }
    }
    None
}

/// Whether there is one tag.
fn is_single(tags: &Tags) -> bool
    ensures { result ≡ spec.is_single tags.now }
{
    match tags {
        Tags::Among(list) => matches!(list.as_slice(), [_]),
        Tags::AllBut(_) => false,
    }
}

/// The first tag whose class is above 3.
fn listed_class_fault(tags: &[TypeTag]) -> Option<TypeFault>
    ensures { is_none result ≡ spec.are_listed_classes tags.now }
{
    for tag in tags {
        if tag.class >= 4 {
            return Some(TypeFault::Class(*tag));
        }
    }
    None
}

/// The same of the tags that an element may have, or may not have.
fn class_fault(tags: &Tags) -> Option<TypeFault>
    ensures { is_none result ≡ spec.are_classes tags.now }
{
    match tags {
        Tags::Among(list) => listed_class_fault(list),
        Tags::AllBut(list) => listed_class_fault(list),
    }
}

/// What is wrong where there is not one tag.
fn tag_fault(tags: &Tags) -> Option<TypeFault>
    ensures { is_none result ≡ spec.is_single tags.now }
{
    if is_single(tags) {
        return None;
    }
    Some(TypeFault::NotOneTag)
}

/// What is wrong with a sequence, or with a set, of which every field is told from all others.
fn row_fault(
    every: bool,
    table: &[Node],
    tags: &Tags,
    fields: &[Field],
    unknown: Option<usize>,
) -> Option<TypeFault>
    ensures { is_none result ≡
        (spec.is_single tags.now && spec.fields_unambiguous every table.now unknown fields.now) }
{
    if is_single(tags) {
        return fields_fault(every, table, unknown, fields);
    }
    Some(TypeFault::NotOneTag)
}

/// What is wrong with a choice.
fn choice_fault(table: &[Node], tags: &Tags, arms: &[usize]) -> Option<TypeFault>
    ensures { is_none result ≡
        (spec.arms_unambiguous table.now arms.now &&
        spec.arms_included table.now tags.now arms.now) }
{
    if let Some(fault) = arms_fault(table, arms) {
        return Some(fault);
    }
    match arm_not_held(table, tags, arms) {
        Some(arm) => Some(TypeFault::ArmTags(arm)),
        None => None,
    }
}

/// What is wrong with the parts of a type. All but a choice, bounds and any element have one tag.
fn kind_fault(table: &[Node], tags: &Tags, kind: &Kind) -> Option<TypeFault>
    ensures { is_none result ≡ spec.kind_unambiguous table.now tags.now kind.now }
{
    match kind {
        Kind::Sequence(fields, unknown) => row_fault(false, table, tags, fields, *unknown),
        Kind::Set(fields, unknown) => row_fault(true, table, tags, fields, *unknown),
        Kind::Choice(arms) => choice_fault(table, tags, arms),
        Kind::Within(of, _, _) => {
            if holds(table, tags, *of) {
                None
            } else {
                Some(TypeFault::InnerTags)
            }
        }
        Kind::Any => None,
        Kind::Boolean => tag_fault(tags),
        Kind::Null => tag_fault(tags),
        Kind::Integer => tag_fault(tags),
        Kind::Enumerated(_, _) => tag_fault(tags),
        Kind::Bits(_) => tag_fault(tags),
        Kind::Octets => tag_fault(tags),
        Kind::Identifier(_) => tag_fault(tags),
        Kind::Text(_) => tag_fault(tags),
        Kind::Time(_) => tag_fault(tags),
        Kind::SequenceOf(_) => tag_fault(tags),
        Kind::SetOf(_) => tag_fault(tags),
        Kind::Explicit(_) => tag_fault(tags),
    }
}

/// What is wrong with the tags of a type, or with its parts.
fn node_fault(table: &[Node], node: &Node) -> Option<TypeFault>
    ensures { is_none result ≡ spec.node_unambiguous table.now node.now }
{
    if let Some(fault) = class_fault(&node.tags) {
        return Some(fault);
    }
    kind_fault(table, &node.tags, &node.kind)
}

/// The first type with which something is wrong.
fn first_not_told(table: &[Node]) -> Option<Unsound>
    ensures { is_none result ≡ spec.all_unambiguous table.now table.now }
{
    for (of, node) in table.iter().enumerate() {
        if let Some(fault) = node_fault(table, node) {
            return Some(Unsound { of, fault });
        }
    }
    None
}

/// The first place that is not before this one.
fn first_ahead(of: usize, places: &[usize]) -> Option<usize>
    ensures { is_none result ≡ spec.all_before of places.now }
{
    for place in places {
        if *place >= of {
            return Some(*place);
        }
    }
    None
}

/// A place to which a type leads with no element between, and which is not before the type.
fn leads_ahead(of: usize, kind: &Kind) -> Option<usize>
    ensures { is_none result ≡ spec.leads_back of kind.now }
{
    match kind {
        Kind::Choice(arms) => first_ahead(of, arms),
        Kind::Within(inner, _, _) => { if *inner < of { None } else { Some(*inner) } }
        _ => None,
    }
}

/// The first type that leads ahead so.
fn first_out_of_order(table: &[Node]) -> Option<Unsound>
    ensures { is_none result ≡ spec.in_order 0 table.now }
{
    let mut left = table;
    let mut of = 0;
    while let Some((node, others)) = left.split_first() {
        if let Some(place) = leads_ahead(of, &node.kind) {
            let fault = TypeFault::LeadsAhead(place);
            return Some(Unsound { of, fault });
        }
        left = others;
        of += 1;
    }
    None
}

/// Why a table is not sound, and none where it is ([`is_sound`]).
#[tactic(auto, unfolding(crate::specs::Sound::is_sound))]
pub fn why_unsound(table: &[Node]) -> Option<Unsound>
    ensures { is_none result ≡ spec.is_sound table.now }
{
    if let Some(found) = first_not_told(table) {
        return Some(found);
    }
    first_out_of_order(table)
}

/// Whether a table is sound.
///
/// Fields that may be left out are told from what may follow them, by class and number. That is each field up to the
/// next one that is required, and unknown elements behind an extension mark. All fields and unknown elements of a set
/// are told from one another. So are arms, and a choice has the tags of its arms. All but a choice, bounds and elements
/// of any type have one tag. A choice and bounds stand behind the types that they lead to, so none leads to itself.
/// Classes are below 4. A place at which there is no type tells nothing: what leads there has no value.
pub fn is_sound(table: &[Node]) -> bool
    ensures { result ≡ spec.is_sound table.now }
{
    why_unsound(table).is_none()
}
