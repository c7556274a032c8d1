//! A type of a caller's own, of which no clause says what is read and written.
use asn1_rs::{
    Any, CheckDerConstraints, Class, DerAutoDerive, DerWrite, Error, FromAny, FromDer, Header,
    Length, SerializeError, SerializeResult, Tag, Tagged, ToDer,
};
use std::alloc::Global;

/// A point, as a sequence of two integers.
#[derive(Debug, Clone, Copy, PartialEq, Eq)]
pub struct Point {
    pub x: i32,
    pub y: i32,
}

impl Point {
    /// The header that it is written under.
    fn header(&self) -> Result<Header<'static>, Error> {
        let length = Length::Definite(self.der_content_len()?);
        Ok(Header::new(Class::Universal, true, Tag::Sequence, length))
    }
}

impl Tagged for Point {
    const TAG: Tag = Tag::Sequence;

    ghost TAG = { record { 0 = 16 } };
}

impl<'a> FromAny<'a> for Point {
    type Error = Error;

    fn try_from_any(alloc: Global, any: Any<'a>) -> Result<Point, Error> {
        any.tag().assert_eq(Tag::Sequence)?;
        let (rest, x) = i32::from_der(alloc, any.as_bytes())?;
        let (rest, y) = i32::from_der(alloc, rest)?;
        if !rest.is_empty() {
            return Err(Tag::Sequence.invalid_value("octets left over"));
        }
        Ok(Point { x, y })
    }
}

impl CheckDerConstraints for Point {
    fn check_constraints(any: &Any<'_>) -> Result<(), Error> {
        any.header.assert_constructed()
    }
}

impl DerAutoDerive for Point {}

impl ToDer for Point {
    fn to_der_len(&self) -> Result<usize, Error> {
        let header = self.header()?.to_der_len()?;
        header
            .checked_add(self.der_content_len()?)
            .ok_or(Error::InvalidLength)
    }

    fn der_content_len(&self) -> Result<usize, Error> {
        let x = self.x.to_der_len()?;
        x.checked_add(self.y.to_der_len()?)
            .ok_or(Error::InvalidLength)
    }

    fn der_constructed(&self) -> bool {
        true
    }

    fn write_der_header<W: DerWrite>(&self, alloc: Global, w: &mut W) -> SerializeResult<usize> {
        self.header()?.write_der_header(alloc, w)
    }

    fn write_der_content<W: DerWrite>(&self, alloc: Global, w: &mut W) -> SerializeResult<usize> {
        let x = self.x.write_der(alloc, w)?;
        let y = self.y.write_der(alloc, w)?;
        x.checked_add(y).ok_or(SerializeError::InvalidLength)
    }
}
