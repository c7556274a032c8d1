//! Truth values with their octet, as they are written (X.690 8.2.2, 11.1).
ghost use Rattle.std.specs.Prelude.{◌≡◌, ◌++◌, ℕ, List, false, length, Ok, true, IfOk, IfErr};
ghost use Rattle.std.specs.Io.KnownBytes.{Appends};
ghost use Rattle.asn1_rs.specs.Boolean.{boolean_number, boolean_leaf, truth_octets, raw_boolean, truth_header};
ghost use Rattle.asn1_rs.specs.Boolean.{IsStrictTruthOctet, truth_writing};
ghost use Rattle.asn1_headers.specs.Error.{tells_of_io};
ghost use Rattle.asn1_rs.specs.Leaf.{leaf_element};
ghost use Rattle.asn1_rs.specs.Laws.Boolean.{boolean_lawful, boolean_lawful_writing};
ghost use Rattle.asn1_rs.specs.Laws.Forms.{universal_number, universal_number_fits};
ghost use Rattle.asn1_rs.specs.Laws.Leaf.{leaf_written};
ghost use Rattle.asn1_rs.specs.ToDer.{Refuses, VectorRefuses, Either};
ghost use Rattle.asn1_headers.specs.Writer.{Wrote, MayRefuse};

use crate::asn1_types::boolean::{Boolean, octet_of, put_truth};
use crate::laws::{LawfulTagged, LawfulWrite, TakesClass};
use crate::to_der::ToDer;
use asn1_headers::buffer::{DerBuffer, prepend_octets};
use asn1_headers::error::{Error, SerializeResult, without_io};
use asn1_headers::writer::{DerWrite, Told, put_all};
use std::alloc::Global;

/// It is written as 00 or ff; its raw form has the octet that it holds.
impl ToDer for Boolean {
    ghost writing = { truth_writing };

    ghost raw_is_der = { λ x. IsStrictTruthOctet x.value };

    fn to_der_len(&self) -> Result<usize, Error>
        ensures { result ≡ Ok 3 }
    {
        Ok(3)
    }

    fn der_content_len(&self) -> Result<usize, Error>
        ensures { result ≡ Ok 1 }
    {
        Ok(1)
    }

    fn der_constructed(&self) -> bool {
        false
    }

    fn write_der_header<W: DerWrite>(&self, _alloc: Global, w: &mut W) -> SerializeResult<usize> {
        put_all(w, &[0x01, 0x01])
    }

    fn write_der_content<W: DerWrite>(&self, _alloc: Global, w: &mut W) -> SerializeResult<usize> {
        put_truth(self.bool(), w)
    }

    #[inline(always)]
    fn write_der<W: DerWrite>(&self, _alloc: Global, w: &mut W) -> SerializeResult<usize> {
        put_all(w, &[0x01, 0x01, octet_of(self.bool())])
    }

    fn prepend_der_content(&self, _alloc: Global, buf: &mut DerBuffer) -> SerializeResult<usize> {
        prepend_octets(&[octet_of(self.bool())], buf)
    }

    fn prepend_der(&self, _alloc: Global, buf: &mut DerBuffer) -> SerializeResult<usize> {
        prepend_octets(&[0x01, 0x01, octet_of(self.bool())], buf)
    }

    /// Appends 01, 01 and the octet that it holds.
    fn write_der_raw<W: DerWrite>(&self, _alloc: Global, w: &mut W) -> SerializeResult<usize>
        ensures raw { Wrote (raw_boolean self.now) (W.state w.old) (W.state w.new) result }
        ensures failed { IfErr result (MayRefuse false 3) }
        ensures der { IsStrictTruthOctet self.now.value →
            Wrote (truth_header ++ truth_octets self.now) (W.state w.old) (W.state w.new) result }
        ensures refused { IsStrictTruthOctet self.now.value →
            IfErr result (Refuses false (length (truth_header ++ truth_octets self.now))
            (Either (λ _. ⊥) (λ _. ⊥))) }
        ensures counted { IfOk result
            (λ n. (raw : List ℕ) × Appends (W.state w.old).told (W.state w.new).told raw ×
            (n ≡ length raw)) }
    {
        put_all(w, &[0x01, 0x01, self.value])
    }

    /// The raw form in a vector.
    fn to_der_vec_raw(&self, alloc: Global) -> SerializeResult<Vec<u8>>
        ensures raw { IfOk result (λ octets. octets.items ≡ raw_boolean self.now) }
        ensures failed { IfErr result (MayRefuse true 3) }
        ensures der { IsStrictTruthOctet self.now.value →
            IfOk result (λ octets. octets.items ≡ truth_header ++ truth_octets self.now) }
        ensures refused { IsStrictTruthOctet self.now.value →
            IfErr result (VectorRefuses (length (truth_header ++ truth_octets self.now))
            (Either (λ _. ⊥) (λ _. ⊥))) }
        ensures memory { IfErr result (λ e. tells_of_io e ≡ false) }
    {
        let mut w = Told::new(Vec::new(alloc));
        match self.write_der_raw(alloc, &mut w) {
            Ok(_) => Ok(w.into_inner()),
            Err(e) => Err(without_io(e)),
        }
    }
}

impl LawfulWrite for Boolean {
    ghost lawful_writing = { boolean_lawful_writing };
}

impl LawfulTagged for Boolean {
    ghost tag_number = { universal_number (leaf_element boolean_leaf) boolean_number truth_octets
        (λ _. false) (leaf_written boolean_leaf boolean_lawful) };

    ghost number_fits = { universal_number_fits (leaf_element boolean_leaf) boolean_number
        truth_octets
        (λ _. false) (leaf_written boolean_leaf boolean_lawful) };
}

impl<const C: u8> TakesClass<C> for Boolean {
    ghost takes_class = { (leaf_written boolean_leaf boolean_lawful).class C };
}
