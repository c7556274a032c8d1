//! Values with no parts.
ghost use Rattle.std.specs.Prelude.{List, None, [], ◌∷◌, ◌++◌, ◌≡◌, Ok, Err, OnOk, IfErr};
ghost use Rattle.asn1_schema.specs.declared.fault.Fault.{Fault};
ghost use Rattle.asn1_schema.specs.declared.fault.Fault.TheVariants as faults;
ghost use Rattle.asn1_schema.specs.declared.tape.Item.{Item};
ghost use Rattle.asn1_schema.specs.declared.refusal.Reason.TheVariants as reasons;
ghost use Rattle.asn1_schema.specs.declared.schema.Node.{Node};
ghost use Rattle.asn1_schema.specs.Sound.{node_at};
ghost use Rattle.asn1_schema.specs.Refusals.{IsOfType, IsTold};
ghost use Rattle.asn1_schema.specs.Tape.{mark, marks};

use crate::elements::Head;
use crate::fault::Fault;
use crate::refusal::{Reason, Refusal};
use crate::rows::put_item;
use crate::tape::Item;

/// Puts the item that contents octets were judged to be on the tape, or tells that they are none.
pub(crate) fn put_leaf<'a>(
    judged: Result<Item<'a>, Fault>,
    of: usize,
    head: Head,
    tape: &mut Vec<Item<'a>>,
    refusal: &mut Refusal,
) -> Result<(), Fault>
    ensures put { (item : Item) → judged.entry ≡ Ok item →
        OnOk result (marks tape.new.items ≡ marks tape.old.items ++ mark item ∷ []) ×
        IfErr result (λ e. e ≡ faults.Memory) }
    ensures refused { (e : Fault) → judged.entry ≡ Err e → result ≡ Err e }
    ensures told { (table : List Node) → IsOfType reasons.Contents (node_at table of) →
        result ≡ Err faults.Refused → IsTold table None refusal.new }
{
    match judged {
        Ok(item) => put_item(tape, item),
        Err(e) => {
            refusal.tell(head.inner, of, Reason::Contents);
            Err(e)
        }
    }
}
