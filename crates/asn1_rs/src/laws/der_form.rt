//! Whether values in hand are in DER form.
ghost use Rattle.std.specs.Prelude.{◌↔◌, IsTrue};

use crate::laws::LawfulItem;

/// A lawful type that tells of each item in hand whether its value is in DER form.
///
/// So [`write_strict`](crate::write_strict) and [`strict_vec`](crate::strict_vec) write the one strict encoding where
/// the answer is yes. A type with [`AlwaysDer`](crate::laws::AlwaysDer) has it too. The answer takes no memory.
pub trait TellsDer: LawfulItem {
    /// Whether the value of the item is in DER form. Items of lists and fields of structs are asked in turn, up to the
    /// first one that is not.
    fn is_der_form(&self) -> bool
        ensures { IsTrue result ↔ Self.grammar.IsDer (Self.grammar.value self.now) };
}

/// What is asked of an item of a list.
pub trait Decides<T> {
    /// What is asked.
    ghost says: { T → Type 0 };

    /// Whether it holds of an item in hand.
    fn decide(item: &T) -> bool
        ensures { IsTrue result ↔ says item.now };
}

/// Asks whether an item is in DER form.
#[derive(Debug)]
pub struct WhetherDer;

impl<T: TellsDer> Decides<T> for WhetherDer {
    ghost says = { λ x. T.grammar.IsDer (T.grammar.value x) };

    fn decide(item: &T) -> bool {
        item.is_der_form()
    }
}
