//! One reader for all types of all sound tables, by DER and by BER.
ghost use Rattle.std.specs.Prelude.{ℕ, List, ◌≡◌, ◌<◌, true, false, length, IfOk, Err, Some, None};
ghost use Rattle.asn1_schema.specs.declared.fault.Fault.TheVariants as faults;
ghost use Rattle.asn1_schema.specs.Refusals.{IsTold, HasFieldsAt, HasElementsAt, IsSetAt};
ghost use Rattle.asn1_schema.specs.Grammar.{AreUnknown};
ghost use Rattle.asn1_schema.specs.Sound.{is_sound, fields_unambiguous, arms_unambiguous, all_before};
ghost use Rattle.asn1_schema.specs.Reading.{rules_of, head_parts, IsBody, IsArmOf, AreFieldsOf, AreItemsOf};
ghost use Rattle.asn1_schema.specs.Reading.{IsRowOf, IsWordOf, BeginsWord, ReadsValue, ReadsValues, ReadsPrefix};
ghost use Rattle.asn1_schema.specs.Reading.{ReadsByPresence, BeginsTagged, HoldsAt};
ghost use Rattle.asn1_schema.specs.Members.{AreElements, IsSetOf, AreMembersOf, AreOthersOf};
ghost use Rattle.asn1_schema.specs.Members.{ReadsLeftOut, ReadsMember, ReadsOther, others_than};
ghost use Rattle.x690.specs.Elements.{Parts};

use crate::any::any_item;
use crate::bounds::judge_bounds;
use crate::coding::Coding;
use crate::elements::{Head, element, is_at_end};
use crate::fault::Fault;
use crate::identifiers::identifier_item;
use crate::leaves::put_leaf;
use crate::named::read_bits;
use crate::numbers::{boolean_item, enumerated_item, integer_item, null_item};
use crate::pieces::{Sort, read_string};
use crate::refusal::{Reason, Refusal, further};
use crate::rows::{close_row, open_row, put_item};
use crate::schema::{Field, Kind, Node, Presence};
use crate::sets::{Found, find_alone, is_of_a_field, judge_order};
use crate::tagged::{arm_of, has_a_tag, node_at, tagged_element};
use crate::tape::Item;

/// Puts the value of an element of the type at a place of the table on the tape.
#[cycle(reading)]
fn read_body<'a>(
    coding: Coding,
    nodes: &'a [Node],
    depth: usize,
    of: usize,
    head: Head,
    content: &'a [u8],
    tape: &mut Vec<Item<'a>>,
    refusal: &mut Refusal,
) -> Result<(), Fault>
    requires { is_sound nodes.now ≡ true }
    ensures value { (d : ℕ) → HoldsAt depth result d →
        ReadsValue (IsBody coding nodes.now d of (head_parts head content.now))
        tape.old.items tape.new.items result }
    ensures told { result ≡ Err faults.Refused → IsTold nodes.now None refusal.new }
{
    let Some(node) = node_at(nodes, of) else {
        refusal.tell(head.start, of, Reason::MissingType);
        return Err(Fault::Refused);
    };
    if !has_a_tag(&node.tags, head) {
        refusal.tell(head.start, of, Reason::Tag);
        return Err(Fault::Refused);
    }
    if depth == 0 {
        refusal.tell(head.start, of, Reason::Depth);
        return Err(Fault::TooDeep);
    }
    match &node.kind {
        Kind::Sequence(fields, unknown) => {
            read_row(
                coding,
                nodes,
                depth - 1,
                fields,
                *unknown,
                of,
                head.constructed,
                content,
                head.inner,
                tape,
                refusal,
            )
        }
        Kind::Set(fields, unknown) => {
            read_set(
                coding,
                nodes,
                depth - 1,
                fields,
                *unknown,
                of,
                head.constructed,
                content,
                head.inner,
                tape,
                refusal,
            )
        }
        Kind::SequenceOf(inner) => {
            read_row(
                coding,
                nodes,
                depth - 1,
                &[],
                Some(*inner),
                of,
                head.constructed,
                content,
                head.inner,
                tape,
                refusal,
            )
        }
        Kind::SetOf(inner) => {
            read_row(
                coding,
                nodes,
                depth - 1,
                &[],
                Some(*inner),
                of,
                head.constructed,
                content,
                head.inner,
                tape,
                refusal,
            )
        }
        Kind::Choice(arms) => read_choice(
            coding, nodes, depth, of, arms, head, content, tape, refusal,
        ),
        Kind::Explicit(inner) => {
            if !head.constructed {
                refusal.tell(head.start, of, Reason::Form);
                return Err(Fault::Refused);
            }
            read_whole(
                coding,
                nodes,
                depth - 1,
                *inner,
                content,
                head.inner,
                tape,
                refusal,
            )
        }
        // What is told first counts only where it is then refused.
        Kind::Octets => {
            refusal.tell(head.inner, of, Reason::Contents);
            read_string(coding, Sort::Octets, depth - 1, head, content, tape)
        }
        Kind::Text(kind) => {
            refusal.tell(head.inner, of, Reason::Contents);
            read_string(coding, Sort::Text(*kind), depth - 1, head, content, tape)
        }
        Kind::Time(kind) => {
            refusal.tell(head.inner, of, Reason::Contents);
            read_string(coding, Sort::Time(*kind), depth - 1, head, content, tape)
        }
        Kind::Bits(named) => {
            refusal.tell(head.inner, of, Reason::Contents);
            read_bits(coding, *named, depth - 1, head, content, tape)
        }
        Kind::Any => {
            refusal.tell(head.inner, of, Reason::Contents);
            match any_item(coding, depth - 1, head, content) {
                Ok(item) => put_item(tape, item),
                Err(e) => Err(e),
            }
        }
        Kind::Within(inner, lower, upper) => {
            let place = tape.len();
            match read_body(coding, nodes, depth, *inner, head, content, tape, refusal) {
                Ok(()) => {
                    refusal.tell(head.start, of, Reason::Bounds);
                    judge_bounds(tape, place, *lower, *upper)
                }
                Err(e) => Err(e),
            }
        }
        Kind::Boolean => put_leaf(boolean_item(coding, head, content), of, head, tape, refusal),
        Kind::Null => put_leaf(null_item(coding, head, content), of, head, tape, refusal),
        Kind::Integer => put_leaf(integer_item(coding, head, content), of, head, tape, refusal),
        Kind::Enumerated(numbers, extensible) => put_leaf(
            enumerated_item(numbers, *extensible, head, content),
            of,
            head,
            tape,
            refusal,
        ),
        Kind::Identifier(relative) => put_leaf(
            identifier_item(coding, *relative, head, content),
            of,
            head,
            tape,
            refusal,
        ),
    }
}

/// Puts a value of the arm that the tag tells on the tape. The arms stand before their choice.
#[cycle(reading)]
fn read_choice<'a>(
    coding: Coding,
    nodes: &'a [Node],
    depth: usize,
    of: usize,
    arms: &[usize],
    head: Head,
    content: &'a [u8],
    tape: &mut Vec<Item<'a>>,
    refusal: &mut Refusal,
) -> Result<(), Fault>
    requires sound { is_sound nodes.now ≡ true }
    requires told { arms_unambiguous nodes.now arms.now ≡ true }
    requires within { of < length nodes.now }
    requires order { all_before of arms.now ≡ true }
    ensures value { (d : ℕ) → HoldsAt depth result d →
        ReadsValue (IsArmOf coding nodes.now d arms.now (head_parts head content.now))
        tape.old.items tape.new.items result }
    ensures told { result ≡ Err faults.Refused → IsTold nodes.now None refusal.new }
{
    let Some((k, arm)) = arm_of(nodes, arms, head) else {
        refusal.tell(head.start, of, Reason::Tag);
        return Err(Fault::Refused);
    };
    match put_item(tape, Item::Arm(k)) {
        Ok(()) => (),
        Err(e) => return Err(e),
    }
    match read_body(coding, nodes, depth, arm, head, content, tape, refusal) {
        Ok(()) => put_item(tape, Item::ArmEnd(k)),
        Err(e) => Err(e),
    }
}

/// Puts the value of the element at the front on the tape, and gives back the rest.
#[cycle(reading)]
pub(crate) fn read_front<'a>(
    coding: Coding,
    nodes: &'a [Node],
    depth: usize,
    of: usize,
    octets: &'a [u8],
    at: usize,
    tape: &mut Vec<Item<'a>>,
    refusal: &mut Refusal,
) -> Result<&'a [u8], Fault>
    requires { is_sound nodes.now ≡ true }
    ensures value { (d : ℕ) → HoldsAt depth result d →
        ReadsPrefix (BeginsWord coding nodes.now d of octets.now)
        tape.old.items tape.new.items result }
    ensures shorter { IfOk result (λ rest. length rest.now < length octets.now) }
    ensures told { result ≡ Err faults.Refused → IsTold nodes.now None refusal.new }
{
    let Some((rest, head, content)) = element(coding, octets, at) else {
        refusal.tell(at, of, Reason::Element);
        return Err(Fault::Refused);
    };
    match read_body(coding, nodes, depth, of, head, content, tape, refusal) {
        Ok(()) => Ok(rest),
        Err(e) => Err(e),
    }
}

/// Puts the value of the word that the octets are on the tape.
#[cycle(reading)]
fn read_whole<'a>(
    coding: Coding,
    nodes: &'a [Node],
    depth: usize,
    of: usize,
    octets: &'a [u8],
    at: usize,
    tape: &mut Vec<Item<'a>>,
    refusal: &mut Refusal,
) -> Result<(), Fault>
    requires { is_sound nodes.now ≡ true }
    ensures value { (d : ℕ) → HoldsAt depth result d →
        ReadsValue (IsWordOf coding nodes.now d of octets.now)
        tape.old.items tape.new.items result }
    ensures told { result ≡ Err faults.Refused → IsTold nodes.now None refusal.new }
{
    match read_front(coding, nodes, depth, of, octets, at, tape, refusal) {
        Ok(rest) => {
            if !is_at_end(rest) {
                refusal.tell(
                    further(at, octets.len(), rest.len()),
                    of,
                    Reason::TrailingOctets,
                );
                return Err(Fault::Refused);
            }
            Ok(())
        }
        Err(e) => Err(e),
    }
}

/// Puts a row on the tape: the values of the fields and unknown elements that the contents octets are.
#[cycle(reading)]
fn read_row<'a>(
    coding: Coding,
    nodes: &'a [Node],
    depth: usize,
    fields: &'a [Field],
    unknown: Option<usize>,
    of: usize,
    constructed: bool,
    octets: &'a [u8],
    at: usize,
    tape: &mut Vec<Item<'a>>,
    refusal: &mut Refusal,
) -> Result<(), Fault>
    requires sound { is_sound nodes.now ≡ true }
    requires told { fields_unambiguous false nodes.now unknown fields.now ≡ true }
    ensures value { (d : ℕ) → HoldsAt depth result d →
        ReadsValue (IsRowOf coding nodes.now d unknown fields.now constructed octets.now)
        tape.old.items tape.new.items result }
    ensures told { HasElementsAt nodes.now of fields.now →
        result ≡ Err faults.Refused → IsTold nodes.now None refusal.new }
{
    if !constructed {
        refusal.tell(at, of, Reason::Form);
        return Err(Fault::Refused);
    }
    match open_row(tape) {
        Ok(place) => match read_fields(
            coding, nodes, depth, fields, unknown, of, octets, at, tape, refusal,
        ) {
            Ok(()) => close_row(tape, place),
            Err(e) => Err(e),
        },
        Err(e) => Err(e),
    }
}

/// Puts the values of fields and unknown elements on the tape.
#[cycle(reading)]
fn read_fields<'a>(
    coding: Coding,
    nodes: &'a [Node],
    depth: usize,
    fields: &'a [Field],
    unknown: Option<usize>,
    of: usize,
    octets: &'a [u8],
    at: usize,
    tape: &mut Vec<Item<'a>>,
    refusal: &mut Refusal,
) -> Result<(), Fault>
    requires sound { is_sound nodes.now ≡ true }
    requires told { fields_unambiguous false nodes.now unknown fields.now ≡ true }
    ensures value { (d : ℕ) → HoldsAt depth result d →
        ReadsValues (AreFieldsOf coding nodes.now d unknown fields.now octets.now)
        tape.old.items tape.new.items result }
    ensures told { HasFieldsAt nodes.now of fields.now →
        result ≡ Err faults.Refused → IsTold nodes.now None refusal.new }
{
    let mut rest = octets;
    let mut left = fields;
    while let Some((field, others)) = left.split_first() {
        match read_field(
            coding,
            nodes,
            depth,
            field,
            rest,
            further(at, octets.len(), rest.len()),
            tape,
            refusal,
        ) {
            Ok(tail) => rest = tail,
            Err(e) => {
                refusal.tell_field(of, fields.len().saturating_sub(left.len()));
                return Err(e);
            }
        }
        left = others;
    }
    read_behind(
        coding,
        nodes,
        depth,
        unknown,
        of,
        rest,
        further(at, octets.len(), rest.len()),
        tape,
        refusal,
    )
}

/// Puts the values of unknown elements behind fields on the tape, where there is an extension mark.
#[cycle(reading)]
fn read_behind<'a>(
    coding: Coding,
    nodes: &'a [Node],
    depth: usize,
    unknown: Option<usize>,
    of: usize,
    octets: &'a [u8],
    at: usize,
    tape: &mut Vec<Item<'a>>,
    refusal: &mut Refusal,
) -> Result<(), Fault>
    requires { is_sound nodes.now ≡ true }
    ensures value { (d : ℕ) → HoldsAt depth result d →
        ReadsValues (AreUnknown (rules_of coding) (IsBody coding nodes.now d) unknown octets.now)
        tape.old.items tape.new.items result }
    ensures told { result ≡ Err faults.Refused → IsTold nodes.now None refusal.new }
{
    match unknown {
        Some(inner) => read_items(coding, nodes, depth, inner, octets, at, tape, refusal),
        None => {
            if !is_at_end(octets) {
                refusal.tell(at, of, Reason::TrailingOctets);
                return Err(Fault::Refused);
            }
            Ok(())
        }
    }
}

/// Puts the values of one type that the octets are on the tape.
#[cycle(reading)]
fn read_items<'a>(
    coding: Coding,
    nodes: &'a [Node],
    depth: usize,
    of: usize,
    octets: &'a [u8],
    at: usize,
    tape: &mut Vec<Item<'a>>,
    refusal: &mut Refusal,
) -> Result<(), Fault>
    requires { is_sound nodes.now ≡ true }
    ensures value { (d : ℕ) → HoldsAt depth result d →
        ReadsValues (AreItemsOf coding nodes.now d of octets.now)
        tape.old.items tape.new.items result }
    ensures told { result ≡ Err faults.Refused → IsTold nodes.now None refusal.new }
{
    let mut rest = octets;
    while !is_at_end(rest) {
        match read_front(
            coding,
            nodes,
            depth,
            of,
            rest,
            further(at, octets.len(), rest.len()),
            tape,
            refusal,
        ) {
            Ok(tail) => rest = tail,
            Err(e) => return Err(e),
        }
    }
    Ok(())
}

/// Puts the value of a field on the tape, or that it is left out, and gives back the rest.
#[cycle(reading)]
fn read_field<'a>(
    coding: Coding,
    nodes: &'a [Node],
    depth: usize,
    field: &'a Field,
    octets: &'a [u8],
    at: usize,
    tape: &mut Vec<Item<'a>>,
    refusal: &mut Refusal,
) -> Result<&'a [u8], Fault>
    requires { is_sound nodes.now ≡ true }
    ensures value { (d : ℕ) → HoldsAt depth result d →
        ReadsByPresence (rules_of coding) (IsBody coding nodes.now d field.now.of)
        (BeginsTagged (rules_of coding) nodes.now field.now.of octets.now) field.now.presence
        octets.now
        tape.old.items tape.new.items result }
    ensures told { result ≡ Err faults.Refused → IsTold nodes.now (Some field.now) refusal.new }
{
    if let Some((rest, head, content)) = tagged_element(coding, nodes, field.of, octets, at) {
        return match read_body(coding, nodes, depth, field.of, head, content, tape, refusal) {
            Ok(()) => Ok(rest),
            Err(e) => Err(e),
        };
    }
    match read_left_out(coding, nodes, depth, field, at, tape, refusal) {
        Ok(()) => Ok(octets),
        Err(e) => Err(e),
    }
}

/// Puts on the tape that a field is left out, or its default.
#[cycle(reading)]
fn read_left_out<'a>(
    coding: Coding,
    nodes: &'a [Node],
    depth: usize,
    field: &'a Field,
    at: usize,
    tape: &mut Vec<Item<'a>>,
    refusal: &mut Refusal,
) -> Result<(), Fault>
    requires { is_sound nodes.now ≡ true }
    ensures value { (d : ℕ) → HoldsAt depth result d →
        ReadsLeftOut (rules_of coding) (IsBody coding nodes.now d field.now.of) field.now.presence
        tape.old.items tape.new.items result }
    ensures told { result ≡ Err faults.Refused → IsTold nodes.now (Some field.now) refusal.new }
{
    match &field.presence {
        Presence::Required => {
            refusal.tell(at, field.of, Reason::MissingField);
            Err(Fault::Refused)
        }
        Presence::Optional => put_item(tape, Item::Absent),
        Presence::Default(default) => {
            match read_whole(coding, nodes, depth, field.of, default, at, tape, refusal) {
                Ok(()) => Ok(()),
                Err(e) => {
                    refusal.tell(at, field.of, Reason::Default);
                    Err(e)
                }
            }
        }
    }
}

/// Puts a set on the tape: the values of the fields, in their order, and unknown elements that the contents octets are.
#[cycle(reading)]
fn read_set<'a>(
    coding: Coding,
    nodes: &'a [Node],
    depth: usize,
    fields: &'a [Field],
    unknown: Option<usize>,
    of: usize,
    constructed: bool,
    octets: &'a [u8],
    at: usize,
    tape: &mut Vec<Item<'a>>,
    refusal: &mut Refusal,
) -> Result<(), Fault>
    requires sound { is_sound nodes.now ≡ true }
    requires told { fields_unambiguous true nodes.now unknown fields.now ≡ true }
    ensures value { (d : ℕ) → HoldsAt depth result d →
        ReadsValue (IsSetOf coding nodes.now d unknown fields.now constructed octets.now)
        tape.old.items tape.new.items result }
    ensures told { IsSetAt nodes.now of fields.now →
        result ≡ Err faults.Refused → IsTold nodes.now None refusal.new }
{
    if !constructed {
        refusal.tell(at, of, Reason::Form);
        return Err(Fault::Refused);
    }
    if !judge_order(coding, of, octets, at, refusal) {
        return Err(Fault::Refused);
    }
    match open_row(tape) {
        Ok(place) => match read_members(
            coding, nodes, depth, fields, unknown, of, octets, at, tape, refusal,
        ) {
            Ok(()) => close_row(tape, place),
            Err(e) => Err(e),
        },
        Err(e) => Err(e),
    }
}

/// Puts the values of the fields of a set, in their order, and unknown elements on the tape.
#[cycle(reading)]
fn read_members<'a>(
    coding: Coding,
    nodes: &'a [Node],
    depth: usize,
    fields: &'a [Field],
    unknown: Option<usize>,
    of: usize,
    octets: &'a [u8],
    at: usize,
    tape: &mut Vec<Item<'a>>,
    refusal: &mut Refusal,
) -> Result<(), Fault>
    requires sound { is_sound nodes.now ≡ true }
    requires told { fields_unambiguous true nodes.now unknown fields.now ≡ true }
    ensures value { (es : List Parts) → AreElements coding octets.now es → (d : ℕ) →
        HoldsAt depth result d →
        ReadsValues (AreMembersOf coding nodes.now d unknown fields.now es)
        tape.old.items tape.new.items result }
    ensures told { HasFieldsAt nodes.now of fields.now →
        result ≡ Err faults.Refused → IsTold nodes.now None refusal.new }
{
    let mut left = fields;
    while let Some((field, others)) = left.split_first() {
        match read_member(coding, nodes, depth, field, octets, at, tape, refusal) {
            Ok(()) => (),
            Err(e) => {
                refusal.tell_field(of, fields.len().saturating_sub(left.len()));
                return Err(e);
            }
        }
        left = others;
    }
    read_others(
        coding, nodes, depth, fields, unknown, of, octets, at, tape, refusal,
    )
}

/// Puts the value of a field of a set on the tape, or that it is left out.
#[cycle(reading)]
fn read_member<'a>(
    coding: Coding,
    nodes: &'a [Node],
    depth: usize,
    field: &'a Field,
    octets: &'a [u8],
    at: usize,
    tape: &mut Vec<Item<'a>>,
    refusal: &mut Refusal,
) -> Result<(), Fault>
    requires { is_sound nodes.now ≡ true }
    ensures value { (es : List Parts) → AreElements coding octets.now es → (d : ℕ) →
        HoldsAt depth result d →
        ReadsMember (rules_of coding) nodes.now field.now.of (IsBody coding nodes.now d field.now.of)
        field.now.presence es tape.old.items tape.new.items result }
    ensures told { result ≡ Err faults.Refused → IsTold nodes.now (Some field.now) refusal.new }
{
    match find_alone(coding, nodes, field.of, octets, at) {
        Found::One(head, content) => {
            read_body(coding, nodes, depth, field.of, head, content, tape, refusal)
        }
        Found::Nothing => read_left_out(coding, nodes, depth, field, at, tape, refusal),
        Found::Several(place) => {
            refusal.tell(place, field.of, Reason::Repeated);
            Err(Fault::Refused)
        }
    }
}

/// Puts the elements of a set that are of no field on the tape.
#[cycle(reading)]
fn read_others<'a>(
    coding: Coding,
    nodes: &'a [Node],
    depth: usize,
    fields: &[Field],
    unknown: Option<usize>,
    of: usize,
    octets: &'a [u8],
    at: usize,
    tape: &mut Vec<Item<'a>>,
    refusal: &mut Refusal,
) -> Result<(), Fault>
    requires { is_sound nodes.now ≡ true }
    ensures value { (es : List Parts) → AreElements coding octets.now es → (d : ℕ) →
        HoldsAt depth result d →
        ReadsValues (AreOthersOf coding nodes.now d unknown (others_than nodes.now fields.now es))
        tape.old.items tape.new.items result }
    ensures told { result ≡ Err faults.Refused → IsTold nodes.now None refusal.new }
{
    let mut rest = octets;
    while let Some((tail, head, content)) = element(
        coding,
        rest,
        further(at, octets.len(), rest.len()),
    ) {
        match read_other(
            coding, nodes, depth, fields, unknown, of, head, content, tape, refusal,
        ) {
            Ok(()) => rest = tail,
            Err(e) => return Err(e),
        }
    }
    Ok(())
}

/// Puts an element on the tape where it is of no field: an unknown one, behind an extension mark.
#[cycle(reading)]
fn read_other<'a>(
    coding: Coding,
    nodes: &'a [Node],
    depth: usize,
    fields: &[Field],
    unknown: Option<usize>,
    of: usize,
    head: Head,
    content: &'a [u8],
    tape: &mut Vec<Item<'a>>,
    refusal: &mut Refusal,
) -> Result<(), Fault>
    requires { is_sound nodes.now ≡ true }
    ensures value { (d : ℕ) → HoldsAt depth result d →
        ReadsOther coding nodes.now d unknown fields.now (head_parts head content.now)
        tape.old.items tape.new.items result }
    ensures told { result ≡ Err faults.Refused → IsTold nodes.now None refusal.new }
{
    if is_of_a_field(nodes, fields, head) {
        return Ok(());
    }
    match unknown {
        Some(inner) => read_body(coding, nodes, depth, inner, head, content, tape, refusal),
        None => {
            refusal.tell(head.start, of, Reason::TrailingOctets);
            Err(Fault::Refused)
        }
    }
}
