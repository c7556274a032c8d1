//! A lawful type of a caller's that borrows its contents octets.
ghost use Rattle.std.specs.Prelude.{◌≡◌};
ghost use Rattle.asn1_rs.specs.Prelude.{parts_of};
ghost use Rattle.asn1_rs.specs.Checks.{is_primitive};
ghost use Rattle.asn1_rs.specs.LeafReading.{leaf_reading};
ghost use Rattle.asn1_rs.specs.Laws.Leaf.{leaf_exact, leaf_written};
ghost use Rattle.asn1_rs_uses.specs.Fingerprint.{fingerprint_leaf, fingerprint_lawful};

use asn1_rs::author::{
    ConvertsLeaf, DerElement, ElementKind, HasKind, LeafType, TagNumber, WritesOctets,
};
use asn1_rs::laws::assert_octets_valid;
use asn1_rs::{Any, Error, Tag, Tagged};
use std::alloc::Global;

/// The fingerprint of a key, an octet string.
#[derive(Debug, Clone, Copy)]
pub struct Fingerprint<'a>(pub &'a [u8]);

impl HasKind for Fingerprint<'_> {
    type Kind = ElementKind;
}

impl LeafType for Fingerprint<'_> {
    type Number = TagNumber<4>;

    ghost reading = { leaf_reading fingerprint_leaf };

    ghost exact = { leaf_exact fingerprint_leaf fingerprint_lawful };

    fn assert_leaf_valid(&self) {
        assert_octets_valid(self.0);
    }

    fn check_leaf(any: &Any<'_>) -> Result<(), Error>
        ensures { is_primitive (parts_of any.now) result }
    {
        any.header.assert_primitive()
    }
}

impl<'a> ConvertsLeaf<'a> for Fingerprint<'a> {
    fn convert_leaf(_alloc: Global, any: Any<'a>) -> Result<Fingerprint<'a>, Error> {
        any.header.assert_tag(Tag::OctetString)?;
        Ok(Fingerprint(any.content))
    }
}

impl DerElement for Fingerprint<'_> {
    ghost each_der = { λ v d. d };
}

impl WritesOctets for Fingerprint<'_> {
    ghost held = { λ x. x.0.now };

    fn contents_octets(&self) -> &[u8] {
        self.0
    }

    ghost held_are = { leaf_written fingerprint_leaf fingerprint_lawful };
}

/// The tag number of a fingerprint.
pub fn number_of_fingerprints() -> u32
    ensures { result ≡ 4 }
{
    Fingerprint::TAG.0
}
