//! Names of common object identifiers.
#![tactic(auto)]

ghost use Rattle.std.specs.Prelude.{◌≡◌, ℕ, List, option_map, IfSome, IfNone};
ghost use Rattle.asn1_names.specs.Names.{IsNameOf, name_in, name_under, named, plain_table, plain_rows};

mod tables;

use tables::TABLES;

/// The name of a last arc, in a table of these.
fn name_of_last(table: &[(u8, &'static str)], last: u8) -> Option<&'static str>
    ensures { option_map (λ name. name.now) result ≡ named (plain_rows table.now) last }
{
    for (number, name) in table {
        if *number == last {
            return Some(*name);
        }
    }
    None
}

/// The name of what stands below an arc with these contents octets, in tables of such arcs.
fn name_below(
    tables: &[(&'static [u8], &'static [(u8, &'static str)])],
    front: &[u8],
    last: u8,
) -> Option<&'static str>
    ensures { option_map (λ name. name.now) result ≡ name_in (plain_table tables.now) front.now
        last }
{
    for (arc, table) in tables {
        if front == *arc {
            return name_of_last(table, last);
        }
    }
    None
}

/// The name of what stands below an arc with these contents octets.
#[tactic(auto, unfolding(crate::specs::Names::name_under))]
fn name_under(front: &[u8], last: u8) -> Option<&'static str>
    ensures { option_map (λ name. name.now) result ≡ name_under front.now last }
{
    name_below(&TABLES, front, last)
}

/// The name of the identifier with these contents octets, where it is a common one.
pub fn name_of(content: &[u8]) -> Option<&'static str>
    ensures some { IfSome result (λ name. IsNameOf content.now name.now) }
    ensures none { IfNone result ((name : List ℕ) → IsNameOf content.now name → ⊥) }
{
    let (last, front) = content.split_last()?;
    name_under(front, *last)
}
