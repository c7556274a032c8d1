//! Embedded presentation data values (X.690 8.18): a value of any type and encoding, and what identifies these.

mod reading;

ghost use Rattle.asn1_headers.specs.declared.error.Error.{Error};
ghost use Rattle.asn1_rs.specs.Laws.EmbeddedPdv.Equal.{pdv_equal};
ghost use Rattle.asn1_rs.specs.Any.{parts_of};
ghost use Rattle.asn1_rs.specs.Checks.{but_text};
ghost use Rattle.asn1_rs.specs.EmbeddedPdv.{IsIdentification, PdvGives, identification_of, pdv_constraints};
ghost use Rattle.asn1_rs.specs.EmbeddedPdv.{pdv_element};
ghost use Rattle.asn1_rs.specs.Laws.EmbeddedPdv.{pdv_checked, pdv_converts, pdv_lawful};
ghost use Rattle.asn1_rs.specs.Leaf.{HasOneRefusalUpTo};
ghost use Rattle.asn1_rs.specs.Traits.{OfParts};

use crate::asn1_types::any::Any;
use crate::asn1_types::integer::octets::Integer;
use crate::asn1_types::oid::Oid;
use crate::asn1_types::strings::kinds::ObjectDescriptor;
use crate::kinds::reading::LawfulCheckBy;
use crate::kinds::{ElementKind, HasKind, LawfulConversion, LawfulElement};
use crate::laws::LawfulMember;
use crate::laws::assert_valid::{assert_octets_valid, assert_text_valid};
use crate::traits::{CheckDerConstraints, DerAutoDerive, FromAny};
use asn1_headers::error::Error;
use std::alloc::Global;

/// How the abstract and the transfer syntax of a data value are identified.
#[derive(Debug, Drop, PartialEq, Eq)]
pub enum PdvIdentification<'a> {
    /// By an identifier of each.
    Syntaxes {
        /// The abstract syntax.
        s_abstract: Oid<'a>,
        /// The transfer syntax.
        s_transfer: Oid<'a>,
    },
    /// By one identifier of both.
    Syntax(Oid<'a>),
    /// By the number of a presentation context.
    PresentationContextId(Integer<'a>),
    /// By the number of a context that is not settled yet, and the transfer syntax.
    ContextNegotiation {
        /// The number of the presentation context.
        presentation_context_id: Integer<'a>,
        /// The transfer syntax.
        presentation_syntax: Oid<'a>,
    },
    /// By the transfer syntax, where the abstract one is known.
    TransferSyntax(Oid<'a>),
    /// By nothing, where both are known.
    Fixed,
}

/// An embedded presentation data value (X.690 8.18): the octets of a data value, and what identifies its syntaxes.
///
/// It is read, and not written. It is read at any tag: its elements are told by their contents octets alone.
#[derive(Debug, Drop, PartialEq, Eq)]
pub struct EmbeddedPdv<'a> {
    /// What identifies the syntaxes of the data value.
    pub identification: PdvIdentification<'a>,
    /// A text that describes the data value; none where it is read.
    pub data_value_descriptor: Option<ObjectDescriptor<'a>>,
    /// The octets of the data value.
    pub data_value: &'a [u8],
}

impl<'a> FromAny<'a> for EmbeddedPdv<'a> {
    type Error = Error;

    ghost any_gives = { OfParts PdvGives };

    #[inline(always)]
    fn try_from_any(_alloc: Global, any: Any<'a>) -> Result<EmbeddedPdv<'a>, Error> {
        any.as_embedded_pdv()
    }
}

impl CheckDerConstraints for EmbeddedPdv<'_> {
    ghost check_gives = { pdv_constraints };

    /// Refuses an indefinite length with `IndefiniteLengthUnexpected`, and then a primitive element with
    /// `ConstructExpected`.
    fn check_constraints(any: &Any<'_>) -> Result<(), Error>
        ensures { pdv_constraints (parts_of any.now) result }
    {
        any.header.length().assert_definite()?;
        any.header.assert_constructed()
    }
}

impl DerAutoDerive for EmbeddedPdv<'_> {}

// A kind, since it is read by DER too, and no `LeafType`, which has a tag number. It has no writer and no strict parts,
// and the laws of reading ask for none.
impl HasKind for EmbeddedPdv<'_> {
    type Kind = ElementKind;
}

impl LawfulElement for EmbeddedPdv<'_> {
    ghost element = { pdv_element };

    ghost lawful = { pdv_lawful };

    fn assert_value_valid(&self) {
        assert_parts_valid(&self.identification);
        if let Some(descriptor) = &self.data_value_descriptor {
            assert_text_valid(descriptor.as_str());
        }
        assert_octets_valid(self.data_value);
    }
}

impl LawfulCheckBy<ElementKind> for EmbeddedPdv<'_> {
    ghost checks_by_kind = { pdv_checked };
}

/// What an identification in hand holds are octets.
fn assert_parts_valid(identification: &PdvIdentification<'_>)
    ensures { IsIdentification (identification_of identification.now) }
{
    match identification {
        PdvIdentification::Syntaxes {
            s_abstract,
            s_transfer,
        } => {
            assert_octets_valid(s_abstract.as_bytes());
            assert_octets_valid(s_transfer.as_bytes());
        }
        PdvIdentification::Syntax(syntax) => assert_octets_valid(syntax.as_bytes()),
        PdvIdentification::PresentationContextId(id) => assert_octets_valid(id.as_bytes()),
        PdvIdentification::ContextNegotiation {
            presentation_context_id,
            presentation_syntax,
        } => {
            assert_octets_valid(presentation_context_id.as_bytes());
            assert_octets_valid(presentation_syntax.as_bytes());
        }
        PdvIdentification::TransferSyntax(syntax) => assert_octets_valid(syntax.as_bytes()),
        PdvIdentification::Fixed => {}
    }
}

impl<'a> LawfulConversion<'a> for EmbeddedPdv<'a> {
    ghost converts = { pdv_converts };
}

impl LawfulMember for EmbeddedPdv<'_> {
    ghost same = { pdv_equal };
}

/// An element has one refusal by the conversion to an embedded presentation data value and one by its check. It has
/// none where it has a value, or meets the constraints. Texts of refusals are told apart by their octets.
pub fn pdvs_have_one_refusal()
    ensures value { HasOneRefusalUpTo but_text PdvGives }
    ensures constraints { HasOneRefusalUpTo (λ (e : Error). e) pdv_constraints }
{}
