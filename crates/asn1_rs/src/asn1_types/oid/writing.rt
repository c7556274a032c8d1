//! Object identifiers as they are written: under the tag number of their kind (X.690 8.19, 8.20).
ghost use Rattle.std.specs.Prelude.{◌≡◌};
ghost use Rattle.asn1_rs.specs.Laws.Oid.{oid_form_number, oid_lawful_writing, oid_number_fits, oid_takes_class};
ghost use Rattle.asn1_rs.specs.Oid.{is_relative, oid_writing, written_number};

use crate::asn1_types::oid::Oid;
use crate::header::{element_len, put_behind};
use crate::laws::{LawfulTagged, LawfulWrite, TakesClass};
use crate::to_der::ToDer;
use asn1_headers::buffer::{DerBuffer, prepend_element, prepend_octets};
use asn1_headers::error::{Error, SerializeResult};
use asn1_headers::header::writing::put_header;
use asn1_headers::tag::Tag;
use asn1_headers::writer::{DerWrite, put_all};
use std::alloc::Global;

impl Oid<'_> {
    /// The tag number that it is written under: 13 of a relative one, else 6.
    #[inline(always)]
    fn written_tag(&self) -> u32
        ensures { result ≡ written_number (is_relative self.now) }
    {
        if self.relative {
            Tag::RelativeOid.0
        } else {
            Tag::Oid.0
        }
    }
}

/// The contents octets are written as they stand, in DER form or not: of a relative one under tag number 13.
/// The raw form is the same.
// The number hangs on the value. `tag()` and `TAG` of a relative one are 6 all the same, since the type has one
// constant.
impl ToDer for Oid<'_> {
    ghost writing = { oid_writing };

    fn to_der_len(&self) -> Result<usize, Error> {
        element_len(self.written_tag(), Ok(self.as_bytes().len()))
    }

    fn der_content_len(&self) -> Result<usize, Error> {
        Ok(self.as_bytes().len())
    }

    fn der_constructed(&self) -> bool {
        false
    }

    #[inline(always)]
    fn write_der_header<W: DerWrite>(&self, _alloc: Global, w: &mut W) -> SerializeResult<usize> {
        put_header(0, false, self.written_tag(), self.as_bytes().len(), w)
    }

    #[inline(always)]
    fn write_der_content<W: DerWrite>(&self, _alloc: Global, w: &mut W) -> SerializeResult<usize> {
        put_all(w, self.as_bytes())
    }

    #[inline(always)]
    fn write_der<W: DerWrite>(&self, _alloc: Global, w: &mut W) -> SerializeResult<usize> {
        let octets = self.as_bytes();
        let header = put_header(0, false, self.written_tag(), octets.len(), w);
        put_behind(header, octets, w)
    }

    fn prepend_der_content(&self, _alloc: Global, buf: &mut DerBuffer) -> SerializeResult<usize> {
        prepend_octets(self.as_bytes(), buf)
    }

    fn prepend_der(&self, _alloc: Global, buf: &mut DerBuffer) -> SerializeResult<usize> {
        let content = prepend_octets(self.as_bytes(), buf);
        prepend_element(0, false, self.written_tag(), content, buf)
    }
}

impl LawfulWrite for Oid<'_> {
    ghost lawful_writing = { oid_lawful_writing };
}

impl LawfulTagged for Oid<'_> {
    ghost tag_number = { oid_form_number };

    ghost number_fits = { oid_number_fits };
}

impl<const C: u8> TakesClass<C> for Oid<'_> {
    ghost takes_class = { oid_takes_class C };
}
