//! How times are shown: as `Display` prints them.
ghost use Rattle.x690.specs.Times.{generalized_time_shown, utc_time_shown};
ghost use Rattle.asn1_headers.specs.declared.error.Error.TheVariants.{InvalidDateTime};
ghost use Rattle.asn1_rs.specs.Times.{generalized_time_leaf, generalized_time_refused, moment_of, utc_time_leaf};
ghost use Rattle.asn1_rs.specs.Times.{utc_time_refused};
ghost use Rattle.asn1vec_answers.specs.Shown.{IsWrittenUnless};
ghost use Rattle.asn1vec_answers.specs.Types.{leaf_octets};

use crate::shown::Encoded;
use crate::text::push_displayed;
use asn1_rs::author::LawfulElement;
use asn1_rs::{GeneralizedTime, UtcTime};
use std::alloc::AllocError;

impl Encoded for UtcTime {
    ghost text_of = { λ x. utc_time_shown (moment_of x.0) };

    ghost Encodes = { λ x. IsWrittenUnless (utc_time_refused (moment_of x.0)) InvalidDateTime
        (leaf_octets utc_time_leaf (moment_of x.0)) };

    fn show(&self, text: &mut Vec<u8>) -> Result<(), AllocError> {
        push_displayed(*text.allocator(), text, self)
    }

    fn is_told(&self) {}
}

impl Encoded for GeneralizedTime {
    ghost text_of = { λ x. generalized_time_shown (moment_of x.0) };

    ghost Encodes = { λ x. IsWrittenUnless (generalized_time_refused (moment_of x.0)) InvalidDateTime
        (leaf_octets generalized_time_leaf (moment_of x.0)) };

    fn show(&self, text: &mut Vec<u8>) -> Result<(), AllocError> {
        push_displayed(*text.allocator(), text, self)
    }

    fn is_told(&self) {
        self.assert_value_valid();
    }
}
