//! UTCTime (X.690 8.25, 11.8).
ghost use Rattle.std.specs.Prelude.{◌≡◌, ◌≤◌, length, Some};
ghost use Rattle.x690.specs.Times.{utc_time_shown, utc_time_text};
ghost use Rattle.asn1_rs.specs.Any.{parts_of};
ghost use Rattle.asn1_rs.specs.Checks.{nothing};
ghost use Rattle.asn1_rs.specs.Leaf.{LeafGives};
ghost use Rattle.asn1_rs.specs.LeafReading.{leaf_reading};
ghost use Rattle.asn1_rs.specs.Laws.Leaf.{leaf_exact, refusing_written};
ghost use Rattle.asn1_rs.specs.Laws.Times.{utc_time_lawful, utc_time_accepted, times_equal};
ghost use Rattle.asn1_rs.specs.Times.{utc_time_leaf, UtcTextGives, moment_cmp, moment_of, utc_time_refused};
ghost use Rattle.asn1_rs.specs.Times.{IsInvalidDateTime};
ghost use Rattle.asn1_rs.specs.Laws.TimeOrder.{times_agree, times_tie, times_total};

use super::{ASN1DateTime, no_time};
use crate::asn1_types::any::Any;
use crate::kinds::der_form::TellsDerElement;
use crate::kinds::leaf::{ConvertsLeaf, LeafType};
use crate::kinds::writing::WritesElement;
use crate::kinds::{ElementKind, HasKind, TagNumber};
use crate::laws::LawfulMember;
use asn1_headers::buffer::{DerBuffer, prepend_octets};
use asn1_headers::error::{Error, SerializeError, SerializeResult};
use asn1_headers::tag::Tag;
use asn1_headers::writer::{DerWrite, put_all};
use std::alloc::Global;
use std::cmp::Ordering;
use std::fmt;
use x690::times::reading::read_utc_time;
use x690::times::shown::ShownUtcTime;
use x690::times::text::ShownText;
use x690::times::writing::write_utc_time;

/// A time of the type UTCTime, whose year is that in its century: from 0 to 99, as it was read (X.690 8.25).
#[derive(Debug, Drop, PartialEq, Eq, PartialOrd)]
pub struct UtcTime(pub ASN1DateTime);

/// The order of the fields, as of [`ASN1DateTime`].
impl Ord for UtcTime {
    ghost cmp = { λ a b. moment_cmp (moment_of a.0) (moment_of b.0) };

    ghost total = { times_total (λ t. t.0) };

    ghost matches_partial_cmp = { λ a b. times_agree a.0 b.0 };

    ghost matches_eq = { λ a b. times_tie a.0 b.0 };

    fn cmp(&self, other: &UtcTime) -> Ordering {
        self.0.cmp(&other.0)
    }
}

impl UtcTime {
    /// The time of these fields. None of them is judged.
    pub const fn new(datetime: ASN1DateTime) -> Self
        ensures { result.0 ≡ datetime }
    {
        UtcTime(datetime)
    }

    /// The time that a text says: `YYMMDDhhmm` and `Z`, or `YYMMDDhhmmss` and a zone, which is `Z` or a sign and
    /// `hhmm`. Refused with `InvalidValue` where the text says none.
    #[inline(always)]
    pub fn from_bytes(bytes: &[u8]) -> Result<Self, Error>
        ensures { UtcTextGives bytes.now result }
    {
        match read_utc_time(bytes) {
            Some(moment) => Ok(UtcTime(ASN1DateTime::from(moment))),
            None => Err(Tag::UtcTime.invalid_value("not a time")),
        }
    }
}

impl UtcTime {
    /// The text that `Display` prints, whatever the fields are. It takes no memory.
    pub fn text(&self) -> ShownText
        ensures text { result ≡ utc_time_shown (moment_of self.now.0) }
        ensures short { length result ≤ 43 }
    {
        ShownUtcTime(&self.0.moment()).text()
    }
}

/// `YYYY-MM-DD hh:mm:ss` and the zone: `Z`, also where none is defined, or the offset.
impl fmt::Display for UtcTime {
    ghost output = { λ t. Some (utc_time_shown (moment_of t.0)) };

    fn fmt<W: fmt::Write>(&self, f: &mut fmt::Formatter<W>) -> fmt::Result {
        f.write_str(self.text().as_str())
    }
}

impl<'a> Any<'a> {
    /// The time that the contents octets say, whether the element is primitive or constructed. Refused at another tag
    /// number with `UnexpectedTag`, at octets outside 20 to 7f with `StringInvalidCharset`, and at another text with
    /// `InvalidValue`.
    pub fn utctime(self) -> Result<UtcTime, Error>
        ensures { LeafGives utc_time_leaf (parts_of self.entry) result }
    {
        self.as_utctime()
    }

    /// The time, of an element that stays.
    #[inline(always)]
    pub fn as_utctime(&self) -> Result<UtcTime, Error>
        ensures { LeafGives utc_time_leaf (parts_of self.now) result }
    {
        self.assert_number(Tag::UtcTime)?;
        match read_utc_time(self.content) {
            Some(moment) => Ok(UtcTime(ASN1DateTime::from(moment))),
            None => Err(no_time(self.content, Tag::UtcTime)),
        }
    }
}

impl HasKind for UtcTime {
    type Kind = ElementKind;
}

impl LeafType for UtcTime {
    type Number = TagNumber<23>;

    ghost reading = { leaf_reading utc_time_leaf };

    ghost exact = { leaf_exact utc_time_leaf utc_time_lawful };

    fn assert_leaf_valid(&self) {
        self.0.assert_fields_valid();
    }

    /// Refuses nothing.
    fn check_leaf(_any: &Any<'_>) -> Result<(), Error> {
        Ok(())
    }
}

impl<'a> ConvertsLeaf<'a> for UtcTime {
    #[inline(always)]
    fn convert_leaf(_alloc: Global, any: Any<'a>) -> Result<UtcTime, Error> {
        any.as_utctime()
    }
}

impl WritesElement for UtcTime {
    ghost octets = { λ t. utc_time_text (moment_of t.0) };

    ghost is_refused = { λ t. utc_time_refused (moment_of t.0) };

    ghost refusal = { λ _. IsInvalidDateTime };

    /// Refused with `InvalidDateTime` where the fields don't fit the text: an offset, a year past 99, another component
    /// past 99, milliseconds past 999.
    fn count_octets(&self) -> Result<usize, Error> {
        match write_utc_time(&self.0.moment()) {
            Some(_) => Ok(13),
            None => Err(Error::InvalidDateTime),
        }
    }

    fn put_octets<W: DerWrite>(&self, w: &mut W) -> SerializeResult<usize> {
        match write_utc_time(&self.0.moment()) {
            Some(text) => put_all(w, &text),
            None => Err(SerializeError::ASN1Error(Error::InvalidDateTime)),
        }
    }

    fn prepend_contents(&self, _alloc: Global, buf: &mut DerBuffer) -> SerializeResult<usize> {
        let Some(text) = write_utc_time(&self.0.moment()) else {
            return Err(SerializeError::ASN1Error(Error::InvalidDateTime));
        };
        prepend_octets(&text, buf)
    }

    ghost written = { refusing_written utc_time_leaf utc_time_lawful
        (λ t. utc_time_refused (moment_of t.0)) utc_time_accepted };
}

/// Where the fields are those of a time that can be, with a year of two digits, no milliseconds, and the zone `Z`
/// (X.690 11.8).
impl TellsDerElement for UtcTime {
    fn is_der_element(&self) -> bool {
        self.0.is_strict_moment() && self.0.year <= 99 && self.0.millisecond.is_none()
    }
}

impl LawfulMember for UtcTime {
    ghost same = { λ x y. times_equal x.0 y.0 };
}
