//! The calls: where a refusal came, by each rule.
ghost use Rattle.std.specs.Prelude.{◌≡◌, length, IfSome, MatchOption};
ghost use Rattle.asn1_rs.specs.Prelude.{IsWhole, TakesWhole};
ghost use Rattle.asn1_rs.specs.Grammar.Item.{ber_words};
ghost use Rattle.asn1_rs_places.specs.Places.{IsToldOf, IsToldOfOne, TakesOne, LocatesRefusal};

use crate::looks::{LooksInto, place_of_one, told};
use crate::refused::Refused;
use asn1_rs::laws::{LawfulBer, LawfulDer};
use asn1_rs::{BerParser, DerParser, Error, FromBer, FromDer};
use std::alloc::Global;

/// Where in the octets a `T` is refused by DER, and with what. The answer is `None` where a `T` is read at their front.
///
/// The octets are read anew: a reader tells no place, and costs nothing for it. `L` says of which parts it is told. The
/// error is the one of the reader.
pub fn place_by_der<'a, T, L>(alloc: Global, octets: &'a [u8]) -> Option<Refused>
where
    T: FromDer<'a, Error> + Drop,
    L: LooksInto<'a, DerParser, T>,
    ensures { MatchOption result (TakesOne T.der_gives octets.now)
        (IsToldOf T.der_gives L.silent L.tells (length octets.now) octets.now) }
{
    match T::from_der(alloc, octets) {
        Ok(_) => None,
        Err(refusal) => Some(told::<DerParser, T, L>(alloc, octets, octets.len(), refusal)),
    }
}

/// Where in the octets a `T` is refused by BER, and with what, as [`place_by_der`]. The answer is `None` where a `T` is
/// read at their front.
pub fn place_by_ber<'a, T, L>(alloc: Global, octets: &'a [u8]) -> Option<Refused>
where
    T: FromBer<'a, Error> + Drop,
    L: LooksInto<'a, BerParser, T>,
    ensures { MatchOption result (TakesOne T.ber_gives octets.now)
        (IsToldOf T.ber_gives L.silent L.tells (length octets.now) octets.now) }
{
    match T::from_ber(alloc, octets) {
        Ok(_) => None,
        Err(refusal) => Some(told::<BerParser, T, L>(alloc, octets, octets.len(), refusal)),
    }
}

/// Where octets are refused that are to be a `T` by DER, with nothing behind it. The answer is `None` exactly where
/// they are, unless memory is out.
///
/// So it tells the place where [`read_der_whole`](asn1_rs::read_der_whole) refuses.
pub fn place_by_der_whole<'a, T, L>(alloc: Global, octets: &'a [u8]) -> Option<Refused>
where
    T: LawfulDer<'a, Error> + Drop,
    L: LooksInto<'a, DerParser, T>,
    ensures exact { LocatesRefusal (IsWhole T.grammar.Der T.grammar.value T.grammar.allocates)
        octets.now result }
    ensures refusal { LocatesRefusal (TakesWhole T.der_gives) octets.now result }
    ensures place { IfSome result
        (IsToldOfOne T.der_gives L.silent L.tells (length octets.now) octets.now) }
{
    place_of_one::<DerParser, T, L>(alloc, octets, octets.len())
}

/// Where octets are refused that are to be a `T` by BER, with nothing behind it, as [`place_by_der_whole`].
pub fn place_by_ber_whole<'a, T, L>(alloc: Global, octets: &'a [u8]) -> Option<Refused>
where
    T: LawfulBer<'a, Error> + Drop,
    L: LooksInto<'a, BerParser, T>,
    ensures exact { LocatesRefusal (IsWhole (ber_words T.grammar) T.grammar.value
        T.grammar.allocates)
        octets.now result }
    ensures refusal { LocatesRefusal (TakesWhole T.ber_gives) octets.now result }
    ensures place { IfSome result
        (IsToldOfOne T.ber_gives L.silent L.tells (length octets.now) octets.now) }
{
    place_of_one::<BerParser, T, L>(alloc, octets, octets.len())
}
