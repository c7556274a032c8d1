//! Items in contents octets.
ghost use Rattle.std.specs.Prelude.{◌≡◌, ◌⊎◌, List, length, map, pos, ℤ, IfOk, IfErr};
ghost use Rattle.x690.specs.Joined.{IsConcatenation, AreConcatenatedWords};
ghost use Rattle.asn1_headers.specs.declared.error.Error.TheVariants as errors;
ghost use Rattle.asn1_rs.specs.Any.Value.{ElementBody, element_of};
ghost use Rattle.asn1_rs.specs.Grammar.{BerWord};
ghost use Rattle.asn1_rs_uses.specs.Items.{EndsBefore};
ghost use Rattle.asn1_rs_uses.specs.Numbers.{NumberByDer};

use asn1_rs::author::ReadsWords;
use asn1_rs::laws::walks_take_words;
use asn1_rs::{Any, BerParser, DerParser, Error, SequenceIterator};
use std::alloc::Global;

/// The items in contents octets, in their order, by the reader `F`.
///
/// On Ok the contents octets are words of the reader's grammar with these values, joined. On Err memory was wanted, or
/// words begin the contents octets, and no word begins what follows.
pub fn items_in<'a, T, F, E>(alloc: Global, content: &'a [u8]) -> Result<Vec<T>, E>
where
    T: Drop,
    F: ReadsWords<'a, T, E>,
    E: From<Error>,
    ensures joined { IfOk result (λ items. IsConcatenation F.Words content.now (map F.value items.items)) }
    ensures refused { IfErr result (λ e. E.from_gives errors.OutOfMemory e
        ⊎ EndsBefore F.Words content.now e) }
    ensures whole { AreConcatenatedWords F.Words content.now
        → IfErr result (E.from_gives errors.OutOfMemory) }
{
    walks_take_words::<T, F, E>();
    let mut items = Vec::new(alloc);
    for item in SequenceIterator::<T, F, E>::new(alloc, content) {
        match item {
            Ok(item) => match items.push(item) {
                Ok(()) => {}
                Err(_) => return Err(E::from(Error::OutOfMemory)),
            },
            Err(e) => return Err(e),
        }
    }
    Ok(items)
}

/// The numbers in contents octets, by DER.
pub fn numbers_in(alloc: Global, content: &[u8]) -> Result<Vec<u64>, Error>
    ensures joined { IfOk result (λ items. IsConcatenation NumberByDer content.now (map pos items.items)) }
    ensures refused { IfErr result (λ e. (e ≡ errors.OutOfMemory)
        ⊎ EndsBefore NumberByDer content.now e) }
    ensures whole { AreConcatenatedWords NumberByDer content.now →
        IfErr result (λ e. e ≡ errors.OutOfMemory) }
{
    items_in::<u64, DerParser, Error>(alloc, content)
}

/// The elements in contents octets, by BER.
pub fn elements_in<'a>(alloc: Global, content: &'a [u8]) -> Result<Vec<Any<'a>>, Error>
    ensures joined { IfOk result
        (λ items. IsConcatenation (BerWord ElementBody) content.now (map element_of items.items)) }
    ensures refused { IfErr result (λ e. (e ≡ errors.OutOfMemory)
        ⊎ EndsBefore (BerWord ElementBody) content.now e) }
    ensures whole { AreConcatenatedWords (BerWord ElementBody) content.now →
        IfErr result (λ e. e ≡ errors.OutOfMemory) }
{
    items_in::<Any<'a>, BerParser, Error>(alloc, content)
}

/// How many numbers stand in contents octets that are numbers by DER, joined.
// Of other contents octets there is no clause. `count` of std counts a refusal as an item. So the number is one more
// than that of the words before the refusal, and tells a caller nothing.
pub fn count_of_numbers(alloc: Global, content: &[u8]) -> usize
    ensures { AreConcatenatedWords NumberByDer content.now → (numbers : List ℤ)
        × IsConcatenation NumberByDer content.now numbers × (result ≡ length numbers) }
{
    walks_take_words::<u64, DerParser, Error>();
    SequenceIterator::<u64, DerParser, Error>::new(alloc, content).count()
}
