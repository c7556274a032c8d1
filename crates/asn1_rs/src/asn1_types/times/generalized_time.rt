//! GeneralizedTime (X.690 8.25, 11.7).
ghost use Rattle.std.specs.Prelude.{◌≡◌, ◌≢◌, ◌≤◌, ◌↔◌, length, IsTrue, Some};
ghost use Rattle.x690.specs.Times.{MostMilliseconds, generalized_time_shown, generalized_time_text};
ghost use Rattle.asn1_rs.specs.Any.{parts_of};
ghost use Rattle.asn1_rs.specs.Leaf.{LeafGives};
ghost use Rattle.asn1_rs.specs.LeafReading.{leaf_reading};
ghost use Rattle.asn1_rs.specs.Laws.Leaf.{leaf_exact, refusing_written};
ghost use Rattle.asn1_rs.specs.Laws.Times.{generalized_time_lawful, generalized_time_accepted, times_equal};
ghost use Rattle.asn1_rs.specs.Times.{generalized_time_leaf};
ghost use Rattle.asn1_rs.specs.Times.{GeneralizedTextGives, IsInvalidDateTime, generalized_time_refused};
ghost use Rattle.asn1_rs.specs.Times.{moment_cmp, moment_of};
ghost use Rattle.asn1_rs.specs.Laws.TimeOrder.{times_agree, times_tie, times_total};

use super::{ASN1DateTime, no_time};
use crate::asn1_types::any::Any;
use crate::header::put_behind;
use crate::kinds::der_form::TellsDerElement;
use crate::kinds::leaf::{ConvertsLeaf, LeafType};
use crate::kinds::writing::WritesElement;
use crate::kinds::{ElementKind, HasKind, TagNumber};
use crate::laws::LawfulMember;
use asn1_headers::buffer::{DerBuffer, prepend_octets};
use asn1_headers::error::{DerConstraint, Error, SerializeError, SerializeResult};
use asn1_headers::header::writing::put_header;
use asn1_headers::tag::Tag;
use asn1_headers::writer::{DerWrite, put_all};
use std::alloc::Global;
use std::cmp::Ordering;
use std::fmt;
use x690::times::reading::read_generalized_time;
use x690::times::shown::ShownGeneralizedTime;
use x690::times::text::ShownText;
use x690::times::writing::write_generalized_time;

/// A time of the type GeneralizedTime (X.690 8.25).
#[derive(Debug, Drop, PartialEq, Eq, PartialOrd)]
pub struct GeneralizedTime(pub ASN1DateTime);

/// The order of the fields, as of [`ASN1DateTime`].
impl Ord for GeneralizedTime {
    ghost cmp = { λ a b. moment_cmp (moment_of a.0) (moment_of b.0) };

    ghost total = { times_total (λ t. t.0) };

    ghost matches_partial_cmp = { λ a b. times_agree a.0 b.0 };

    ghost matches_eq = { λ a b. times_tie a.0 b.0 };

    fn cmp(&self, other: &GeneralizedTime) -> Ordering {
        self.0.cmp(&other.0)
    }
}

impl GeneralizedTime {
    /// The time of these fields. None of them is judged.
    pub const fn new(datetime: ASN1DateTime) -> Self
        ensures { result.0 ≡ datetime }
    {
        GeneralizedTime(datetime)
    }

    /// The time that a text says: `YYYYMMDDhhmm` and `Z`, or `YYYYMMDDhhmmss`, then a fraction or none, then a zone
    /// or none. A fraction is a point or a comma and one to three digits, a zone `Z` or a sign and `hhmm`. Refused
    /// with `InvalidValue` where the text says none.
    #[inline(always)]
    pub fn from_bytes(bytes: &[u8]) -> Result<Self, Error>
        ensures { GeneralizedTextGives bytes.now result }
    {
        match read_generalized_time(bytes) {
            Some(moment) => Ok(GeneralizedTime(ASN1DateTime::from(moment))),
            None => Err(Tag::GeneralizedTime.invalid_value("not a time")),
        }
    }
}

impl GeneralizedTime {
    /// The text that `Display` prints, whatever the fields are. It takes no memory.
    pub fn text(&self) -> ShownText
        ensures text { result ≡ generalized_time_shown (moment_of self.now.0) }
        ensures short { length result ≤ 43 }
    {
        ShownGeneralizedTime(&self.0.moment()).text()
    }
}

/// `YYYY-MM-DD hh:mm:ss`, the milliseconds as a fraction without zeros at its end, and the zone: `Z`, an offset, or
/// none where none is defined.
impl fmt::Display for GeneralizedTime {
    ghost output = { λ t. Some (generalized_time_shown (moment_of t.0)) };

    fn fmt<W: fmt::Write>(&self, f: &mut fmt::Formatter<W>) -> fmt::Result {
        f.write_str(self.text().as_str())
    }
}

impl<'a> Any<'a> {
    /// The time that the contents octets say, whether the element is primitive or constructed. Refused at another tag
    /// number with `UnexpectedTag`, at octets outside 20 to 7f with `StringInvalidCharset`, and at another text with
    /// `InvalidValue`.
    pub fn generalizedtime(self) -> Result<GeneralizedTime, Error>
        ensures { LeafGives generalized_time_leaf (parts_of self.entry) result }
    {
        self.as_generalizedtime()
    }

    /// The time, of an element that stays.
    #[inline(always)]
    pub fn as_generalizedtime(&self) -> Result<GeneralizedTime, Error>
        ensures { LeafGives generalized_time_leaf (parts_of self.now) result }
    {
        self.assert_number(Tag::GeneralizedTime)?;
        match read_generalized_time(self.content) {
            Some(moment) => Ok(GeneralizedTime(ASN1DateTime::from(moment))),
            None => Err(no_time(self.content, Tag::GeneralizedTime)),
        }
    }
}

/// Whether there are no milliseconds, or from 1 to 999.
fn is_strict_fraction(millisecond: Option<u16>) -> bool
    ensures { IsTrue result ↔ MostMilliseconds 999 millisecond × (millisecond ≢ Some 0) }
{
    match millisecond {
        None => true,
        Some(count) => 1 <= count && count <= 999,
    }
}

impl HasKind for GeneralizedTime {
    type Kind = ElementKind;
}

impl LeafType for GeneralizedTime {
    type Number = TagNumber<24>;

    ghost reading = { leaf_reading generalized_time_leaf };

    ghost exact = { leaf_exact generalized_time_leaf generalized_time_lawful };

    fn assert_leaf_valid(&self) {
        self.0.assert_fields_valid();
    }

    /// Refuses contents octets that do not end in `Z` (X.690 11.7.1), then those with a comma (11.7.4), with
    /// `DerConstraintFailed`.
    fn check_leaf(any: &Any<'_>) -> Result<(), Error> {
        if any.content.last() != Some(&b'Z') {
            return Err(Error::DerConstraintFailed(DerConstraint::MissingTimeZone));
        }
        if any.content.contains(&b',') {
            return Err(Error::DerConstraintFailed(DerConstraint::MissingSeconds));
        }
        Ok(())
    }
}

impl<'a> ConvertsLeaf<'a> for GeneralizedTime {
    #[inline(always)]
    fn convert_leaf(_alloc: Global, any: Any<'a>) -> Result<GeneralizedTime, Error> {
        any.as_generalizedtime()
    }
}

impl WritesElement for GeneralizedTime {
    ghost octets = { λ t. generalized_time_text (moment_of t.0) };

    ghost is_refused = { λ t. generalized_time_refused (moment_of t.0) };

    ghost refusal = { λ _. IsInvalidDateTime };

    /// Refused with `InvalidDateTime` where the fields don't fit the text: an offset, a year past 9999, another
    /// component past 99, milliseconds past 999.
    fn count_octets(&self) -> Result<usize, Error> {
        match write_generalized_time(&self.0.moment()) {
            Some(text) => Ok(text.as_bytes().len()),
            None => Err(Error::InvalidDateTime),
        }
    }

    fn put_octets<W: DerWrite>(&self, w: &mut W) -> SerializeResult<usize> {
        match write_generalized_time(&self.0.moment()) {
            Some(text) => put_all(w, text.as_bytes()),
            None => Err(SerializeError::ASN1Error(Error::InvalidDateTime)),
        }
    }

    fn prepend_contents(&self, _alloc: Global, buf: &mut DerBuffer) -> SerializeResult<usize> {
        let Some(text) = write_generalized_time(&self.0.moment()) else {
            return Err(SerializeError::ASN1Error(Error::InvalidDateTime));
        };
        prepend_octets(text.as_bytes(), buf)
    }

    #[inline(always)]
    fn put_element<W: DerWrite>(&self, w: &mut W) -> SerializeResult<usize> {
        let Some(text) = write_generalized_time(&self.0.moment()) else {
            return Err(SerializeError::ASN1Error(Error::InvalidDateTime));
        };
        let octets = text.as_bytes();
        let header = put_header(0, false, Tag::GeneralizedTime.0, octets.len(), w);
        put_behind(header, octets, w)
    }

    ghost written = { refusing_written generalized_time_leaf generalized_time_lawful
        (λ t. generalized_time_refused (moment_of t.0)) generalized_time_accepted };
}

/// Where the fields are those of a time that can be, with a year of four digits, a fraction other than zero where there
/// is one, and the zone `Z` (X.690 11.7).
impl TellsDerElement for GeneralizedTime {
    fn is_der_element(&self) -> bool {
        self.0.is_strict_moment() && self.0.year <= 9999 && is_strict_fraction(self.0.millisecond)
    }
}

impl LawfulMember for GeneralizedTime {
    ghost same = { λ x y. times_equal x.0 y.0 };
}
