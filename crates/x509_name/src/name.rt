//! Names.
ghost use Rattle.std.specs.Prelude.{◌≡◌, ◌<◌, ◌^◌, ◌++◌, ℕ, List, length, true, false, IfErr, IsErr, MatchResult};
ghost use Rattle.std.specs.Io.KnownBytes.{Appends};
ghost use Rattle.std.specs.List.{All};
ghost use Rattle.std.proofs.Common.{lit<};
ghost use Rattle.asn1_rs.specs.Prelude.{Error, Exactly, IsTruncatedIdentifier, IsMemoryOrLength, seen, SerializeError};
ghost use Rattle.asn1_rs.specs.Prelude.{Wrote};
ghost use Rattle.x690.specs.Collections.{Multiset};
ghost use Rattle.asn1_headers.specs.Answers.{ReadsBack};
ghost use Rattle.asn1_headers.specs.declared.error.SerializeError.TheVariants as serialize_errors;
ghost use Rattle.asn1_rs.specs.ToDer.{RefusedAtOnce, Refuses};
ghost use Rattle.asn1_rs.specs.Laws.Lists.{takes_some};
ghost use Rattle.asn1_rs.specs.Lists.{SomeRefuses};
ghost use Rattle.x509_name.specs.Attribute.{AttributeValue};
ghost use Rattle.x509_name.specs.Laws.Name.{attributes_in_word_order, name_exact, name_lawful, name_number};
ghost use Rattle.x509_name.specs.Laws.RelativeNameReading.{Memory};
ghost use Rattle.x509_name.specs.Laws.RelativeNameWriting.{name_lawful_writing};
ghost use Rattle.x509_name.specs.Name.{NameGives, NameInWordOrder, name_element, name_item, name_value};
ghost use Rattle.x509_name.specs.Name.{HoldsEmpty, StrictName, name_octets, name_writing, relative_names, rows_of};
ghost use Rattle.x509_name.specs.RelativeName.{HasNoAttribute, IsNonEmpty, RefusedForNone, attributes};

use crate::relative_name::RelativeDistinguishedName;
use asn1_rs::author::{ElementKind, HasKind, LawfulElement, TagNumber, TaggedAs, refusal_of_count};
use asn1_rs::laws::{LawfulDer, LawfulItem, LawfulTagged, LawfulWrite};
use asn1_rs::{
    DerBuffer, DerWrite, Error, FromDer, ParseResult, SerializeResult, ToDer, read_der, strict_vec,
    write_strict,
};
use std::alloc::Global;

/// A name: relative names, in their order.
#[derive(Debug, Drop)]
pub struct Name<'a> {
    /// The relative names.
    pub rdn_sequence: Vec<RelativeDistinguishedName<'a>>,
}

impl HasKind for Name<'_> {
    type Kind = ElementKind;
}

impl TaggedAs for Name<'_> {
    type Number = TagNumber<16>;
}

impl LawfulElement for Name<'_> {
    ghost element = { name_element };

    ghost lawful = { name_lawful };

    fn assert_value_valid(&self) {
        self.rdn_sequence.has_value();
    }
}

impl<'a> FromDer<'a, Error> for Name<'a> {
    ghost der_gives = { NameGives };

    /// Reads a name at the front, by DER. Refused as a `Vec` of relative names is. One of no relative names is read.
    fn from_der(alloc: Global, bytes: &'a [u8]) -> ParseResult<'a, Name<'a>, Error> {
        match Vec::<RelativeDistinguishedName<'a>>::from_der(alloc, bytes) {
            Ok((rest, rdn_sequence)) => Ok((rest, Name { rdn_sequence })),
            Err(refusal) => Err(refusal),
        }
    }
}

impl<'a> LawfulDer<'a, Error> for Name<'a> {
    ghost der_exact = { λ input answer octets. name_exact input answer };

    ghost der_no_memory = { λ none input answer g. takes_some none };
}

impl Name<'_> {
    /// Refuses a name that holds a relative name without attributes.
    fn assert_each_some(&self) -> Result<(), Error>
        ensures { MatchResult result (λ _. All (λ r. IsNonEmpty (attributes r))
            (relative_names self.now))
            (SomeRefuses HasNoAttribute (relative_names self.now)) }
    {
        for relative_name in &self.rdn_sequence {
            relative_name.assert_some()?;
        }
        Ok(())
    }
}

/// A name is written as the vector of its relative names is. One that holds a relative name without attributes is
/// refused, also in counting, before anything is appended.
impl ToDer for Name<'_> {
    ghost writing = { name_writing };

    fn to_der_len(&self) -> Result<usize, Error> {
        self.rdn_sequence.to_der_len()
    }

    fn der_content_len(&self) -> Result<usize, Error> {
        self.rdn_sequence.der_content_len()
    }

    fn der_constructed(&self) -> bool {
        self.rdn_sequence.der_constructed()
    }

    fn write_der_header<W: DerWrite>(&self, alloc: Global, w: &mut W) -> SerializeResult<usize> {
        self.rdn_sequence.write_der_header(alloc, w)
    }

    /// Appends the contents octets. Where a relative name has no attribute, nothing is appended.
    fn write_der_content<W: DerWrite>(&self, alloc: Global, w: &mut W) -> SerializeResult<usize>
        ensures wrote { name_writing.tells self.now →
            Wrote (name_writing.content self.now) (W.state w.old) (W.state w.new) result }
        ensures refused { name_writing.tells self.now → IfErr result
            (Refuses true (length (name_writing.content self.now)) (name_writing.content_refuses self.now)) }
        ensures accepted { (e : SerializeError) → name_writing.tells self.now →
            name_writing.content_refuses self.now e → IsErr result }
        ensures uncounted { (e : Error) → name_writing.tells self.now →
            name_writing.count_refuses self.now e → IsErr result }
        ensures first { (e : SerializeError) → name_writing.refuses_first self.now e →
            RefusedAtOnce e (W.state w.old) (W.state w.new) result }
        ensures at_once { HoldsEmpty self.now → RefusedForNone (W.state w.old) (W.state w.new) result }
    {
        if let Err(e) = self.assert_each_some() {
            return Err(refusal_of_count(e));
        }
        self.rdn_sequence.write_der_content(alloc, w)
    }

    fn prepend_der_content(&self, alloc: Global, buf: &mut DerBuffer) -> SerializeResult<usize> {
        self.rdn_sequence.prepend_der_content(alloc, buf)
    }

    fn prepend_der(&self, alloc: Global, buf: &mut DerBuffer) -> SerializeResult<usize> {
        self.rdn_sequence.prepend_der(alloc, buf)
    }
}

impl LawfulWrite for Name<'_> {
    ghost lawful_writing = { name_lawful_writing };
}

impl LawfulTagged for Name<'_> {
    ghost tag_number = { name_number };

    ghost number_fits = { lit< tt };
}

/// Reads a name at the front of the octets, by DER. The answer is Ok exactly where a word of the grammar of names
/// begins the octets. It has the value of the word and what follows the word. A refusal is final. The strict encoding
/// of a value is read back before any rest. [`write_name`] and [`name_vec`] say of which names they write the strict
/// encoding.
///
/// The attributes of each relative name stand in the order of their words, and the relative names in that of theirs.
pub fn read_name(alloc: Global, octets: &[u8]) -> ParseResult<'_, Name<'_>, Error>
    ensures exact { Exactly IsTruncatedIdentifier name_item.Der name_value Memory octets.now (seen result) }
    ensures in_word_order { Exactly IsTruncatedIdentifier NameInWordOrder rows_of Memory octets.now
        (seen result) }
    ensures back { (v : List (Multiset AttributeValue)) (word rest : List ℕ) →
        ∥ StrictName v word ∥₁ → octets.now ≡ word ++ rest →
        ReadsBack name_value Memory v rest (seen result) }
{
    read_der::<Name<'_>, Error>(alloc, octets)
}

/// Appends a name, and answers the number of octets. Of a name in DER form the octets are its one strict encoding. No
/// other value has this encoding, and this encoding begins no other one. The name is refused when out of memory, where
/// its length passes `usize`, and by the writer.
pub fn write_name<W: DerWrite>(name: &Name<'_>, alloc: Global, w: &mut W) -> SerializeResult<usize>
    ensures strict { name_element.IsDer (name_value name.now) →
        length (name_octets name.now) < 2 ^ 64 → (W.state w.new).failed ≡ false →
        ∥ StrictName (name_value name.now) (name_octets name.now) ∥₁ × MatchResult result
        (λ n. Appends (W.state w.old).told (W.state w.new).told (name_octets name.now) ×
        (n ≡ length (name_octets name.now))) (λ e. e ≡ serialize_errors.OutOfMemory) }
    ensures wrote { (o : List ℕ) → StrictName (name_value name.now) o →
        Wrote o (W.state w.old) (W.state w.new) result }
    ensures one { (o p : List ℕ) → StrictName (name_value name.now) o →
        StrictName (name_value name.now) p → o ≡ p }
    ensures apart { (o p r s : List ℕ) (m n : List (Multiset AttributeValue)) → StrictName m o →
        StrictName n p → o ++ r ≡ p ++ s → (o ≡ p) × (m ≡ n) × (r ≡ s) }
{
    write_strict(name, alloc, w)
}

/// A name in a vector. Of one in DER form it is the one strict encoding. Refused only when out of memory, or where the
/// length passes `usize`.
pub fn name_vec(alloc: Global, name: &Name<'_>) -> SerializeResult<Vec<u8>>
    ensures strict { (o : List ℕ) → StrictName (name_value name.now) o →
        MatchResult result (λ octets. octets.items ≡ o) (IsMemoryOrLength o) }
    ensures der { name_element.IsDer (name_value name.now) → MatchResult result
        (λ octets. octets.items ≡ name_octets name.now) (IsMemoryOrLength (name_octets name.now)) }
{
    strict_vec(alloc, name)
}
