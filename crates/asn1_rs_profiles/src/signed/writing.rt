//! How such values are written: as the element that they keep.
ghost use Rattle.asn1_headers.specs.Header.{tag_of};
ghost use Rattle.asn1_rs_profiles.specs.Signed.{signed_writing};
ghost use Rattle.asn1_rs_profiles.specs.Signed.Held.{element_in};

use crate::signed::Signed;
use asn1_rs::{DerBuffer, DerWrite, DynTagged, Error, SerializeResult, Tag, ToDer};
use std::alloc::Global;

impl<T> DynTagged for Signed<'_, T> {
    ghost dyn_tag = { λ s. tag_of (element_in s).header };

    fn tag(&self) -> Tag {
        self.element.tag()
    }
}

/// The octets are written as they were kept.
impl<T> ToDer for Signed<'_, T> {
    ghost writing = { signed_writing element_in };

    fn to_der_len(&self) -> Result<usize, Error> {
        self.element.to_der_len()
    }

    fn der_content_len(&self) -> Result<usize, Error> {
        self.element.der_content_len()
    }

    fn der_constructed(&self) -> bool {
        self.element.der_constructed()
    }

    fn write_der_header<W: DerWrite>(&self, alloc: Global, w: &mut W) -> SerializeResult<usize> {
        self.element.write_der_header(alloc, w)
    }

    fn write_der_content<W: DerWrite>(&self, alloc: Global, w: &mut W) -> SerializeResult<usize> {
        self.element.write_der_content(alloc, w)
    }

    fn write_der<W: DerWrite>(&self, alloc: Global, w: &mut W) -> SerializeResult<usize> {
        self.element.write_der(alloc, w)
    }

    fn prepend_der_content(&self, alloc: Global, buf: &mut DerBuffer) -> SerializeResult<usize> {
        self.element.prepend_der_content(alloc, buf)
    }

    fn prepend_der(&self, alloc: Global, buf: &mut DerBuffer) -> SerializeResult<usize> {
        self.element.prepend_der(alloc, buf)
    }
}
