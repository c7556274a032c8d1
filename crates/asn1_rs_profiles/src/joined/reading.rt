//! How such strings are read and written.
ghost use Rattle.std.specs.Prelude.{◌≡◌};
ghost use Rattle.asn1_rs.specs.Any.{parts_of};
ghost use Rattle.asn1_rs.specs.Checks.{is_primitive};
ghost use Rattle.asn1_rs_profiles.specs.Joined.{JoinedGives, held_in, joined_reading, octets_of_joined};
ghost use Rattle.asn1_rs_profiles.specs.Joined.Lawful.{joined_equal, joined_exact, joined_written};

use crate::joined::pieces::joined_octets;
use crate::joined::{Joined, JoinedKind, OctetKind};
use asn1_rs::author::{ConvertsLeaf, DerElement, LeafType, WritesOctets};
use asn1_rs::laws::{LawfulMember, assert_octets_valid};
use asn1_rs::{Any, Error, Tagged};
use std::alloc::Global;
use std::marker::PhantomData;

/// The string that an element is.
fn string_of<'a, K: JoinedKind>(alloc: Global, any: &Any<'a>) -> Result<Joined<'a, K>, Error>
    ensures { JoinedGives (K.Number.TAG).0 K.IsText any.now result }
{
    any.header.assert_tag(K::Number::TAG)?;
    let octets = joined_octets(alloc, &any.header, any.content)?;
    if !K::is_text(octets.as_slice()) {
        return Err(Error::StringInvalidCharset);
    }
    Ok(Joined {
        octets,
        kind: PhantomData,
    })
}

impl<K: JoinedKind> LeafType for Joined<'_, K> {
    type Number = K::Number;

    ghost reading = { joined_reading (K.Number.TAG).0 K.IsText };

    ghost exact = { joined_exact (K.Number.TAG).0 K.IsText K.small K.primitive };

    fn assert_leaf_valid(&self) {
        assert_octets_valid(self.as_bytes());
    }

    /// Refuses a constructed element with `ConstructUnexpected` (X.690 10.2).
    fn check_leaf(any: &Any<'_>) -> Result<(), Error>
        ensures { is_primitive (parts_of any.now) result }
    {
        any.header.assert_primitive()
    }
}

/// Joins the pieces. Refused at another tag number with `UnexpectedTag`, and with `BerValueError` where contents octets
/// are no pieces, or nest too deep. Joined octets that the type does not have are `StringInvalidCharset`.
impl<'a, K: JoinedKind> ConvertsLeaf<'a> for Joined<'a, K> {
    fn convert_leaf(alloc: Global, any: Any<'a>) -> Result<Joined<'a, K>, Error> {
        string_of(alloc, &any)
    }
}

/// Each octet string is in DER form.
impl DerElement for Joined<'_, OctetKind> {
    ghost each_der = { λ v o. (o, tt) };
}

impl<K: JoinedKind> WritesOctets for Joined<'_, K> {
    ghost held = { octets_of_joined };

    fn contents_octets(&self) -> &[u8] {
        self.as_bytes()
    }

    ghost held_are = { joined_written (K.Number.TAG).0 K.IsText K.small K.primitive };
}

impl<K: JoinedKind> LawfulMember for Joined<'_, K> {
    ghost same = { joined_equal };
}
