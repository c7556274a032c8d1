//! Whether the types of a table lead to places of the table alone, and choices and bounds to places before them.
ghost use Rattle.std.specs.Prelude.{◌≡◌, IfOk, true};
ghost use Rattle.asn1_module.specs.Leads.{added_in_order, are_places, fields_lead, kind_leads};
ghost use Rattle.asn1_module.specs.Leads.{lead_within, unknown_leads};
ghost use Rattle.asn1_schema.specs.Sound.{all_before, leads_back};

use crate::mistake::{ModuleError, Place, Wrong};
use asn1_schema::schema::{Field, Kind, Node};

/// Whether each field is of a type at one of so many places.
fn fields_lead(fields: &[Field], count: usize) -> bool
    ensures { result ≡ fields_lead count fields.now }
{
    fields.iter().all(|field| field.of < count)
}

/// Whether each of these is one of so many places.
fn are_places(places: &[usize], count: usize) -> bool
    ensures { result ≡ are_places count places.now }
{
    places.iter().all(|of| *of < count)
}

/// Whether the type of unknown elements, if there may be some, is at one of so many places.
fn unknown_leads(unknown: Option<usize>, count: usize) -> bool
    ensures { result ≡ unknown_leads count unknown }
{
    match unknown {
        None => true,
        Some(of) => of < count,
    }
}

/// Whether what a type leads to is at one of so many places.
fn kind_leads(kind: &Kind, count: usize) -> bool
    ensures { result ≡ kind_leads count kind.now }
{
    match kind {
        Kind::Sequence(fields, unknown) => {
            fields_lead(fields, count) && unknown_leads(*unknown, count)
        }
        Kind::Set(fields, unknown) => fields_lead(fields, count) && unknown_leads(*unknown, count),
        Kind::SequenceOf(of) => *of < count,
        Kind::SetOf(of) => *of < count,
        Kind::Choice(arms) => are_places(arms, count),
        Kind::Explicit(of) => *of < count,
        Kind::Within(of, _, _) => *of < count,
        _ => true,
    }
}

/// Whether what each type of a table leads to is a place of the table.
fn lead_within(nodes: &[Node]) -> bool
    ensures { result ≡ lead_within nodes.now }
{
    let count = nodes.len();
    nodes.iter().all(|node| kind_leads(&node.kind, count))
}

/// Whether each of these places is before one.
fn are_before(places: &[usize], of: usize) -> bool
    ensures { result ≡ all_before of places.now }
{
    places.iter().all(|place| *place < of)
}

/// Whether a type at a place leads to places before it, where it is a choice or bounds.
fn leads_back(kind: &Kind, of: usize) -> bool
    ensures { result ≡ leads_back of kind.now }
{
    match kind {
        Kind::Choice(arms) => are_before(arms, of),
        Kind::Within(inner, _, _) => *inner < of,
        _ => true,
    }
}

/// Whether the choices and bounds behind so many types of a table stand behind what they lead to.
#[tactic(auto, using(std::proofs::lemmas::List::drop_all))]
fn stand_in_order(nodes: &[Node], count: usize) -> bool
    ensures { result ≡ added_in_order count nodes.now }
{
    let Some((_, mut left)) = nodes.split_at_checked(count) else {
        return true;
    };
    let mut of = count;
    while let Some((node, others)) = left.split_first() {
        if !leads_back(&node.kind, of) {
            return false;
        }
        left = others;
        of += 1;
    }
    true
}

/// Refuses a table of which some type leads to a place that the table has not, or of which a choice or bounds behind so
/// many types lead ahead. None that was built by calls does.
pub(crate) fn check_leads(nodes: &[Node], count: usize) -> Result<(), ModuleError>
    ensures leads { IfOk result (λ _. lead_within nodes.now ≡ true) }
    ensures order { IfOk result (λ _. added_in_order count nodes.now ≡ true) }
{
    let start = Place { text: 0, octet: 0 };
    if !lead_within(nodes) {
        return Err(start.error(Wrong::NotDefined));
    }
    if !stand_in_order(nodes, count) {
        return Err(start.error(Wrong::LeadsToItself));
    }
    Ok(())
}
