//! What takes the fields of a struct, one after another: it counts them, or puts them before what a buffer holds.
ghost use Rattle.std.specs.Prelude.{◌≡◌, ℕ, List};
ghost use Rattle.asn1_rs.specs.Fields.{TakenFields, counted, prepended, taken_in, collected, goes_back, PutsField};

use crate::header::add_counts;
use crate::to_der::ToDer;
use asn1_headers::buffer::DerBuffer;
use asn1_headers::error::{SerializeResult, refusal_of_count};
use std::alloc::Global;

/// The kind of structs, which are written as their fields, one after another, under one header.
#[derive(Debug)]
pub struct FieldsKind;

/// What takes the fields of a value: it counts their encodings, or puts them before what a buffer holds.
#[derive(Debug, Drop)]
pub struct Fields {
    taken: Taken,
}

/// What was taken of the fields so far: the number of their octets, or the octets.
#[derive(Debug, Drop)]
enum Taken {
    Counted(usize),
    Prepended(Global, DerBuffer),
}

impl Fields {
    /// What counts their encodings.
    pub(crate) fn counted() -> Fields
        ensures { taken_in result ≡ counted 0 }
    {
        Fields {
            taken: Taken::Counted(0),
        }
    }

    /// What puts them before the octets of a buffer.
    pub(crate) fn before(alloc: Global, buf: DerBuffer) -> Fields
        ensures { taken_in result ≡ prepended buf }
    {
        Fields {
            taken: Taken::Prepended(alloc, buf),
        }
    }

    /// Whether the last field is to be put first, and each one in front of those behind it.
    #[inline(always)]
    pub(crate) fn goes_back(&self) -> bool
        ensures { result ≡ goes_back (taken_in self.now) }
    {
        matches!(self.taken, Taken::Prepended(..))
    }

    /// Takes the encoding of a field behind those of the fields before.
    ///
    /// Refused as the field is, with `OutOfMemory` in the place of a writer's failure, and with `InvalidLength` where
    /// the sum of the counts passes `usize`.
    #[inline(always)]
    pub fn put<T: ToDer>(&mut self, field: &T) -> SerializeResult<()>
        ensures { PutsField T.writing field.now (taken_in self.old) (taken_in self.new) result }
    {
        match &mut self.taken {
            Taken::Counted(total) => count_field(total, field),
            Taken::Prepended(alloc, buf) => prepend_field(*alloc, buf, field),
        }
    }

    /// How many octets were taken.
    pub(crate) fn count(&self) -> usize
        ensures { (n : ℕ) → taken_in self.now ≡ counted n → result ≡ n }
    {
        match &self.taken {
            Taken::Counted(total) => *total,
            Taken::Prepended(_, buf) => buf.len(),
        }
    }

    /// The octets that stand there; none where they were counted.
    pub(crate) fn as_bytes(&self) -> &[u8]
        ensures { result.now ≡ collected (taken_in self.now) }
    {
        match &self.taken {
            Taken::Counted(_) => &[],
            Taken::Prepended(_, buf) => buf.as_bytes(),
        }
    }

    /// The buffer that they were put in; an empty one where they were not.
    pub(crate) fn into_buffer(self, alloc: Global) -> DerBuffer
        ensures { (octets : List ℕ) → taken_in self ≡ prepended octets → result ≡ octets }
    {
        match self.taken {
            Taken::Counted(_) => DerBuffer::new(alloc),
            Taken::Prepended(_, buf) => buf,
        }
    }
}

/// Adds the count of a field.
fn count_field<T: ToDer>(total: &mut usize, field: &T) -> SerializeResult<()>
    ensures { PutsField T.writing field.now (counted total.old) (counted total.new) result }
{
    match field.to_der_len() {
        Ok(count) => match add_counts(*total, count) {
            Ok(sum) => {
                *total = sum;
                Ok(())
            }
            Err(e) => Err(refusal_of_count(e)),
        },
        Err(e) => Err(refusal_of_count(e)),
    }
}

/// Puts the encoding of a field in front.
#[inline(always)]
fn prepend_field<T: ToDer>(alloc: Global, buf: &mut DerBuffer, field: &T) -> SerializeResult<()>
    ensures { PutsField T.writing field.now (prepended buf.old) (prepended buf.new) result }
{
    match field.prepend_der(alloc, buf) {
        Ok(_) => Ok(()),
        Err(e) => Err(e),
    }
}
