//! Items and rows are put on a tape forwards: the distance at the beginning of a row is written once its end is known.
ghost use Rattle.std.specs.Prelude.{List, [], ◌∷◌, ◌++◌, ◌≡◌, ◌<◌, length, IfOk, IfErr, OnOk};
ghost use Rattle.asn1_schema.specs.declared.fault.Fault.TheVariants as faults;
ghost use Rattle.asn1_schema.specs.Tape.{Mark, mark, marks, begin_mark, end_mark, between};

use crate::fault::Fault;
use crate::tape::Item;

/// Puts an item on the tape.
pub(crate) fn put_item<'a>(tape: &mut Vec<Item<'a>>, item: Item<'a>) -> Result<(), Fault>
    ensures ok { OnOk result (marks tape.new.items ≡ marks tape.old.items ++ mark item.entry ∷ []) }
    ensures err { IfErr result (λ e. e ≡ faults.Memory) }
{
    match tape.push(item) {
        Ok(()) => Ok(()),
        Err(_) => Err(Fault::Memory),
    }
}

/// Begins a row, and answers its place.
pub(crate) fn open_row<'a>(tape: &mut Vec<Item<'a>>) -> Result<usize, Fault>
    ensures place { IfOk result (λ place. place ≡ length (marks tape.old.items)) }
    ensures pushed { OnOk result (marks tape.new.items ≡ marks tape.old.items ++ begin_mark 0 ∷ []) }
    ensures err { IfErr result (λ e. e ≡ faults.Memory) }
{
    let place = tape.len();
    match tape.push(Item::Begin(0)) {
        Ok(()) => Ok(place),
        Err(_) => Err(Fault::Memory),
    }
}

/// Ends the row that began at a place.
pub(crate) fn close_row<'a>(tape: &mut Vec<Item<'a>>, place: usize) -> Result<(), Fault>
    requires { place < length tape.old.items }
    ensures err { IfErr result (λ e. e ≡ faults.Memory) }
    ensures closed { (front inner : List Mark) → marks tape.old.items ≡ front ++ begin_mark 0 ∷
        inner →
        place ≡ length front → OnOk result
        (marks tape.new.items ≡ front ++ between (begin_mark (length inner)) inner (end_mark
        (length inner))) }
{
    let count = tape.len() - place - 1;
    match tape.push(Item::End(count)) {
        Ok(()) => {
            tape[place] = Item::Begin(count);
            Ok(())
        }
        Err(_) => Err(Fault::Memory),
    }
}
