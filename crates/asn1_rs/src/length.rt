//! Lengths as values that are written: their length octets are their header (X.690 8.1.3, 10.1).
ghost use Rattle.std.specs.Prelude.{◌≡◌, false, [], length, Ok};
ghost use Rattle.x690.specs.Strict.{length_form_octets};
ghost use Rattle.asn1_headers.specs.Length.{form_of};
ghost use Rattle.asn1_rs.specs.ToDer.{plain_writing};

use crate::to_der::ToDer;
use crate::traits::DynTagged;
use asn1_headers::error::{Error, SerializeResult};
use asn1_headers::length::Length;
use asn1_headers::length::writing::{length_len, put_length};
use asn1_headers::tag::Tag;
use asn1_headers::writer::DerWrite;
use std::alloc::Global;

impl DynTagged for Length {
    ghost dyn_tag = { λ _. record { 0 = 0 } };

    fn tag(&self) -> Tag {
        Tag(0)
    }
}

impl ToDer for Length {
    ghost writing = { plain_writing (λ form. length_form_octets (form_of form)) (λ _. [])
        (λ _. false) };

    fn to_der_len(&self) -> Result<usize, Error>
        ensures { result ≡ Ok (length (length_form_octets (form_of self.now))) }
    {
        Ok(length_len(*self))
    }

    fn der_content_len(&self) -> Result<usize, Error>
        ensures { result ≡ Ok 0 }
    {
        Ok(0) // The length octets are its header.
    }

    fn der_constructed(&self) -> bool {
        false
    }

    fn write_der_header<W: DerWrite>(&self, _alloc: Global, w: &mut W) -> SerializeResult<usize> {
        put_length(*self, w)
    }

    fn write_der_content<W: DerWrite>(&self, _alloc: Global, _w: &mut W) -> SerializeResult<usize> {
        Ok(0)
    }
}
