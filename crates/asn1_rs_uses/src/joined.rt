//! Items of sequences and sets, as the words that contents octets are joined of.
ghost use Rattle.std.specs.Prelude.{◌≡◌, ◌≢◌, ◌⊎◌, ℤ, List, map, pos, IfOk, IfErr};
ghost use Rattle.x690.specs.Joined.{IsConcatenation};
ghost use Rattle.asn1_rs.specs.Prelude.{items_of, seen};
ghost use Rattle.asn1_headers.specs.declared.error.Error.TheVariants as errors;
ghost use Rattle.asn1_rs.specs.Lists.{HasNoConcatenation};
ghost use Rattle.asn1_rs_uses.specs.Items.{EndsBefore, BeginsWithNumbers, RefusesNumbers};
ghost use Rattle.asn1_rs_uses.specs.Numbers.{NumberByDer};

use asn1_rs::laws::{items_are_joined_words, lists_are_joined_words, walks_take_words};
use asn1_rs::{DerParser, Error, FromDer, ParseResult, Sequence, SequenceIterator, SetOf};
use std::alloc::Global;
use std::borrow::CowSlice;

/// The numbers of the sequence that has these contents octets, by DER.
pub fn numbers_of(alloc: Global, content: &[u8]) -> Result<Vec<u64>, Error>
    ensures joined { IfOk result
        (λ numbers. IsConcatenation NumberByDer content.now (map pos numbers.items)) }
    ensures refused { IfErr result (λ e. (e ≡ errors.OutOfMemory)
        ⊎ HasNoConcatenation NumberByDer content.now) }
{
    items_are_joined_words::<u64, DerParser, Error>();
    let sequence = Sequence::new(CowSlice::Borrowed(content));
    sequence.into_der_sequence_of_ref(alloc)
}

/// The set of numbers at the front of the octets, by DER, and what follows it. It keeps the numbers in the order of the
/// words.
///
/// Refused as the element is, when out of memory, and where the element is no set of numbers by DER.
pub fn set_of_numbers(alloc: Global, octets: &[u8]) -> ParseResult<'_, SetOf<u64>, Error>
    ensures numbers { IfOk (seen result) (λ x. BeginsWithNumbers octets.now (items_of x.1) x.0) }
    ensures refused { IfErr (seen result) (RefusesNumbers octets.now) }
{
    lists_are_joined_words::<SetOf<u64>, u64, DerParser, Error>();
    SetOf::from_der(alloc, octets)
}

/// Refuses contents octets that are not numbers by DER, joined. No memory is taken, so it is not told to be out.
pub fn check_numbers(alloc: Global, content: &[u8]) -> Result<(), Error>
    ensures joined { IfOk result (λ _. (numbers : List ℤ) × IsConcatenation NumberByDer content.now numbers) }
    ensures refused { IfErr result (EndsBefore NumberByDer content.now) }
    ensures asks_no_memory { IfErr result (λ e. e ≢ errors.OutOfMemory) }
{
    walks_take_words::<u64, DerParser, Error>();
    for number in SequenceIterator::<u64, DerParser, Error>::new(alloc, content) {
        match number {
            Ok(_) => {}
            Err(e) => return Err(e),
        }
    }
    Ok(())
}
