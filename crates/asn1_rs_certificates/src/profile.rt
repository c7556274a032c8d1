//! What RFC 5280 asks of a certificate beyond the types of its fields.
ghost use Rattle.std.specs.Prelude.{◌≡◌, ◌↔◌, IsTrue, MatchResult, option_map};
ghost use Rattle.asn1_rs.specs.Any.Kept.{kept_value};
ghost use Rattle.asn1_rs_certificates.specs.Certificates.{AreSameAlgorithms, FieldsFitVersion};
ghost use Rattle.asn1_rs_certificates.specs.Certificates.{IsOfProfile, IsOutsideProfile};

use crate::{Certificate, TbsCertificate};
use asn1_rs::laws::{Grammar, LawfulMember};
use asn1_rs::{Error, KeptAny, Tag};
use asn1_rs_messages::AlgorithmIdentifier;

/// Whether two items have one value, and so one strict encoding.
fn are_same<T: LawfulMember>(one: &T, other: &T) -> bool
    ensures { IsTrue result ↔ (T.grammar.value one.now ≡ T.grammar.value other.now) }
{
    one == other
}

/// Whether neither has parameters, or both have the same.
fn are_same_parameters(one: &Option<KeptAny<'_>>, other: &Option<KeptAny<'_>>) -> bool
    ensures { IsTrue result ↔ (option_map kept_value one.now ≡ option_map kept_value other.now) }
{
    match (one, other) {
        (Some(one), Some(other)) => are_same(one, other),
        (None, None) => true,
        (Some(_), None) | (None, Some(_)) => false,
    }
}

/// Whether two algorithms have the same identifier and the same parameters, or none.
fn are_same_algorithms(one: &AlgorithmIdentifier<'_>, other: &AlgorithmIdentifier<'_>) -> bool
    ensures { IsTrue result ↔ AreSameAlgorithms one.now other.now }
{
    are_same(&one.algorithm, &other.algorithm)
        && are_same_parameters(&one.parameters, &other.parameters)
}

impl TbsCertificate<'_> {
    /// Whether the version has the fields that are there. Unique identifiers stand in the second and the third version
    /// (4.1.2.8), extensions in the third (4.1.2.9).
    pub fn fields_fit_version(&self) -> bool
        ensures { IsTrue result ↔ FieldsFitVersion self.now }
    {
        let version = *self.version.value.as_inner();
        (self.issuer_unique_id.is_none() || version == 1 || version == 2)
            && (self.subject_unique_id.is_none() || version == 1 || version == 2)
            && (self.extensions.is_none() || version == 2)
    }
}

impl Certificate<'_> {
    /// Refuses fields that the version does not have (4.1.2.8, 4.1.2.9). Then it refuses an algorithm of the signature
    /// that differs from the signed one (4.1.1.2).
    pub fn assert_profile(&self) -> Result<(), Error>
        ensures { MatchResult result (λ _. IsOfProfile self.now) (IsOutsideProfile self.now) }
    {
        let signed = &self.tbs_certificate;
        if !signed.fields_fit_version() {
            return Err(Tag::Integer.invalid_value("fields of another version"));
        }
        if !are_same_algorithms(&signed.signature, &self.signature_algorithm) {
            return Err(Tag::Sequence.invalid_value("another algorithm"));
        }
        Ok(())
    }
}
