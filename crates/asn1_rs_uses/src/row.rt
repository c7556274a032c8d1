//! A list of a caller's: it is read as the library's lists are.
ghost use Rattle.std.specs.Prelude.{◌≡◌, MatchResult};
ghost use Rattle.asn1_rs.specs.Prelude.{seen};

use asn1_rs::author::{AnyForm, FromItems, HasKind, HasReader, ListReader, SequenceKind};
use asn1_rs::{Error, FromDer, ParseResult, Tag, Tagged};
use std::alloc::{AllocError, Global};

/// The cells of a table's row, from left to right.
#[derive(Debug, Drop)]
pub struct Row<T> {
    /// The cells.
    pub cells: Vec<T>,
}

impl<T> Tagged for Row<T> {
    const TAG: Tag = Tag::Sequence;

    ghost TAG = { record { 0 = 16 } };
}

impl<T> HasKind for Row<T> {
    type Kind = SequenceKind;
}

impl<T> HasReader for Row<T> {
    type Reader = ListReader<AnyForm>;
}

impl<T> FromItems for Row<T> {
    type Item = T;

    type Refusal = Error;

    ghost holds = { λ items row. row.cells.items ≡ items };

    fn from_items(_alloc: Global, items: Vec<T>) -> Result<Row<T>, AllocError>
        ensures { MatchResult result (λ row. row.cells.items ≡ items.items) (λ _. ⊥) }
    {
        Ok(Row { cells: items })
    }
}

/// The row of numbers at the front, by DER, and what follows it.
pub fn row_of_numbers<'a>(alloc: Global, octets: &'a [u8]) -> ParseResult<'a, Row<u8>, Error>
    ensures { ⟦<Row<u8> as FromDer<'a, Error>>⟧.der_gives octets.now (seen result) }
{
    Row::from_der(alloc, octets)
}
