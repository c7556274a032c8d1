//! Sequences and sets of the encodings of items.
ghost use Rattle.std.specs.Prelude.{◌≡◌, ◌++◌, false, IfOk, IfErr, IsErr, length};
ghost use Rattle.std.specs.declared.result.Result.TheVariants as results;
ghost use Rattle.std.specs.Iterator.{IsFinite};
ghost use Rattle.asn1_headers.specs.Error.{tells_of_io, vector_refusal};
ghost use Rattle.asn1_headers.specs.declared.error.Error.{Error};
ghost use Rattle.asn1_headers.specs.declared.error.SerializeError.{SerializeError};
ghost use Rattle.asn1_rs.specs.Kept.{JoinsGiven, content_octets};
ghost use Rattle.asn1_rs.specs.Lists.{listed};
ghost use Rattle.asn1_rs.specs.ToDer.{VectorRefuses, IntoVector, RefusesAtOnce, whole_allocates, whole_octets};
ghost use Rattle.asn1_rs.specs.ToDer.{whole_refuses};

use crate::asn1_types::kept::Kept;
use crate::to_der::ToDer;
use crate::traits::Tagged;
use asn1_headers::error::{SerializeResult, without_io};
use asn1_headers::writer::Told;
use std::alloc::Global;
use std::borrow::CowSlice;

/// The octets with the encoding of the item behind them.
fn with_encoding<T: ToDer>(octets: Vec<u8>, item: &T, alloc: Global) -> SerializeResult<Vec<u8>>
    ensures wrote { T.writing.tells item.now →
        IfOk result (λ v. v.items ≡ octets.items ++ (whole_octets T.writing item.now)) }
    ensures refused { T.writing.tells item.now →
        IfErr result (VectorRefuses (length (whole_octets T.writing item.now))
        (whole_refuses T.writing item.now)) }
    ensures accepted { (e : SerializeError) → T.writing.tells item.now →
        whole_refuses T.writing item.now e → IsErr result }
    ensures uncounted { (e : Error) → T.writing.tells item.now →
        T.writing.count_refuses item.now e → IsErr result }
    ensures at_once { (e : SerializeError) → T.writing.tells item.now →
        T.writing.header_refuses item.now e →
        IfErr result (IntoVector (RefusesAtOnce
        (whole_allocates T.writing)
        (length (whole_octets T.writing item.now))
        (whole_refuses T.writing item.now))) }
    ensures memory { IfErr result (λ e. tells_of_io e ≡ false) }
    ensures first { (e : SerializeError) → T.writing.refuses_first item.now e →
        result ≡ results.Err (vector_refusal e) }
{
    let mut w = Told::new(octets);
    match item.write_der(alloc, &mut w) {
        Ok(_) => Ok(w.into_inner()),
        Err(e) => Err(without_io(e)),
    }
}

/// The encodings of the items, joined in the order in which the iterator gives them.
/// The first item that is refused ends that.
fn joined_encodings<T, I>(alloc: Global, items: I) -> SerializeResult<Vec<u8>>
where
    T: ToDer + Drop,
    I: Iterator<Item = T> + Drop,
    requires can { I.can_next items × IsFinite (I.remaining items) }
    ensures { JoinsGiven I.next_gives T.writing items (listed result) }
{
    let mut octets = Vec::new(alloc);
    for item in items {
        octets = with_encoding(octets, &item, alloc)?;
    }
    Ok(octets)
}

impl<K> Kept<'static, K> {
    /// The list of the encodings of these items, joined in the order given, in memory of its own.
    ///
    /// Refused as the first item is that is refused, or with `OutOfMemory`; never with an `IOError`.
    pub fn from_iter_to_der<T, I>(alloc: Global, items: I) -> SerializeResult<Kept<'static, K>>
    where
        T: ToDer + Tagged + Drop,
        I: Iterator<Item = T> + Drop,
        requires can { I.can_next items × IsFinite (I.remaining items) }
        ensures { JoinsGiven I.next_gives T.writing items (content_octets result) }
    {
        match joined_encodings(alloc, items) {
            Ok(content) => Ok(Kept::new(CowSlice::Owned(content))),
            Err(e) => Err(e),
        }
    }
}
