//! The checks of conversions, each with its refusal.
ghost use Rattle.asn1_rs.specs.Any.{parts_of};
ghost use Rattle.asn1_rs.specs.Checks.{has_length, has_number};

use crate::asn1_types::any::Any;
use asn1_headers::error::Error;
use asn1_headers::length::Length;
use asn1_headers::tag::Tag;

impl Any<'_> {
    /// Refuses another tag number with `UnexpectedTag`.
    #[inline(always)]
    pub(crate) fn assert_number(&self, tag: Tag) -> Result<(), Error>
        ensures { has_number tag.0 (parts_of self.now) result }
    {
        self.header.assert_tag(tag)
    }

    /// Refuses with `InvalidLength` where the header does not count so many contents octets, or there are not so many.
    #[inline(always)]
    pub(crate) fn assert_length(&self, count: usize) -> Result<(), Error>
        ensures { has_length count (parts_of self.now) result }
    {
        if self.header.length() == Length::Definite(count) && self.content.len() == count {
            Ok(())
        } else {
            Err(Error::InvalidLength)
        }
    }
}
