//! A lawful type of a caller's that holds a number.
ghost use Rattle.std.specs.Prelude.{false, pos};
ghost use Rattle.x690.specs.Integers.{unsigned_octets};
ghost use Rattle.x690.specs.Laws.Integers.Unsigned.{unsigned_octets_content};
ghost use Rattle.asn1_rs.specs.Integer.{IsUnsigned};
ghost use Rattle.asn1_rs.specs.Integer.Machine.{unsigned_machine};
ghost use Rattle.asn1_rs.specs.LeafReading.{inner_reading};
ghost use Rattle.asn1_rs.specs.Laws.Integer.{integer_written};
ghost use Rattle.asn1_rs.specs.Laws.Integer.Machine.{machine_exact, unsigned_lawful};
ghost use Rattle.asn1_rs.specs.Laws.Kinds.{holding_written};
ghost use Rattle.asn1_rs.specs.Laws.Leaf.{inner_exact};

use asn1_rs::author::{
    ConvertsLeaf, DerElement, ElementKind, HasKind, LeafType, TagNumber, WritesElement,
};
use asn1_rs::{Any, DerBuffer, DerWrite, Error, SerializeResult};
use std::alloc::Global;

/// The serial number of a certificate, of at most 64 bits.
#[derive(Debug, Clone, Copy, PartialEq, Eq)]
pub struct SerialNumber(pub u64);

impl HasKind for SerialNumber {
    type Kind = ElementKind;
}

impl LeafType for SerialNumber {
    type Number = TagNumber<2>;

    ghost reading = { inner_reading (λ x. x.0) ⟦<u64 as LeafType>⟧.reading };

    ghost exact = { inner_exact (λ x. x.0) _
        (machine_exact (unsigned_machine 8) (unsigned_lawful 8)) };

    fn assert_leaf_valid(&self) {
        self.0.assert_leaf_valid();
    }

    fn check_leaf(any: &Any<'_>) -> Result<(), Error> {
        u64::check_leaf(any)
    }
}

impl<'a> ConvertsLeaf<'a> for SerialNumber {
    fn convert_leaf(_alloc: Global, any: Any<'a>) -> Result<SerialNumber, Error> {
        Ok(SerialNumber(any.u64()?))
    }
}

impl DerElement for SerialNumber {
    ghost each_der = { λ v d. d };
}

impl WritesElement for SerialNumber {
    ghost octets = { λ x. unsigned_octets x.0 };

    fn count_octets(&self) -> Result<usize, Error> {
        self.0.count_octets()
    }

    fn put_octets<W: DerWrite>(&self, w: &mut W) -> SerializeResult<usize> {
        self.0.put_octets(w)
    }

    fn prepend_contents(&self, alloc: Global, buf: &mut DerBuffer) -> SerializeResult<usize> {
        self.0.prepend_contents(alloc, buf)
    }

    ghost written = { holding_written (λ x. x.0) _ 2 unsigned_octets (λ _. false)
        (integer_written pos unsigned_octets unsigned_octets_content (IsUnsigned 8)) };
}
