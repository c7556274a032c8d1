//! Calls by a bound that names a lifetime, in functions that answer the library's own errors.
ghost use Rattle.std.specs.Prelude.{◌≡◌, List, length, IfOk};
ghost use Rattle.std.specs.Iterator.{IsFinite};
ghost use Rattle.std.specs.List.{All, flat_map};
ghost use Rattle.asn1_rs.specs.Prelude.{seen, whole_octets};
ghost use Rattle.asn1_rs.specs.Lists.{GivesItems};

use asn1_rs::{Error, FromBer, ParseResult, ToDer};
use std::alloc::Global;

/// The value at the front of the octets, by the reader by BER of its type.
pub fn read_by_bound<'a, T: FromBer<'a, Error>>(
    alloc: Global,
    octets: &'a [u8],
) -> ParseResult<'a, T, Error>
    ensures { T.ber_gives octets.now (seen result) }
{
    T::from_ber(alloc, octets)
}

/// How many octets all the values have that an iterator gives. Refused where a value is, and where the sum passes
/// `usize`.
// Of refusals there is no clause. `T` is any type, so `to_der_len` may refuse as its `writing` tells of a value that
// the iterator gave. The loop would have to keep which value that is. No invariant that keeps it was proved.
pub fn count_all<'s, T, I>(items: I) -> Result<usize, Error>
where
    T: ToDer + 's,
    I: Iterator<Item = &'s T> + Drop,
    requires { I.can_next items × IsFinite (I.remaining items) }
    ensures { (xs : List T) → GivesItems I.next_gives (λ r x. x ≡ r.now) items xs →
        All T.writing.tells xs →
        IfOk result (λ n. n ≡ length (flat_map (whole_octets T.writing) xs)) }
{
    let mut all: usize = 0;
    for item in items {
        all = all
            .checked_add(item.to_der_len()?)
            .ok_or(Error::InvalidLength)?;
    }
    Ok(all)
}
