//! How subtypes are written: as their type.
ghost use Rattle.asn1_rs.specs.ToDer.{inner_writing};

use crate::refined::{Property, Refined};
use asn1_rs::{DerBuffer, DerWrite, Error, SerializeResult, Tag, Tagged, ToDer};
use std::alloc::Global;

/// The tag number of the type.
impl<T: Tagged, P: Property<T>> Tagged for Refined<T, P> {
    const TAG: Tag = T::TAG;

    ghost TAG = { T.TAG };
}

/// The value is written.
impl<T: ToDer + Tagged, P: Property<T>> ToDer for Refined<T, P> {
    ghost writing = { inner_writing (λ x. x.value) T.writing };

    fn to_der_len(&self) -> Result<usize, Error> {
        self.value.to_der_len()
    }

    fn der_content_len(&self) -> Result<usize, Error> {
        self.value.der_content_len()
    }

    fn der_constructed(&self) -> bool {
        self.value.der_constructed()
    }

    fn write_der_header<W: DerWrite>(&self, alloc: Global, w: &mut W) -> SerializeResult<usize> {
        self.value.write_der_header(alloc, w)
    }

    fn write_der_content<W: DerWrite>(&self, alloc: Global, w: &mut W) -> SerializeResult<usize> {
        self.value.write_der_content(alloc, w)
    }

    fn write_der<W: DerWrite>(&self, alloc: Global, w: &mut W) -> SerializeResult<usize> {
        self.value.write_der(alloc, w)
    }

    fn prepend_der_content(&self, alloc: Global, buf: &mut DerBuffer) -> SerializeResult<usize> {
        self.value.prepend_der_content(alloc, buf)
    }

    fn prepend_der(&self, alloc: Global, buf: &mut DerBuffer) -> SerializeResult<usize> {
        self.value.prepend_der(alloc, buf)
    }
}
