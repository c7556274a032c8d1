//! How embedded presentation data values are shown.
ghost use Rattle.std.specs.Prelude.{◌≡◌, ◌++◌, None, OnOk};
ghost use Rattle.asn1_rs.specs.EmbeddedPdv.{identification_of, pdv_value};
ghost use Rattle.asn1vec_answers.specs.Shown.{identification_text, pdv_text};

use crate::shown::{Encoded, Shown};
use crate::text::{push_hexadecimal, push_str};
use asn1_rs::{EmbeddedPdv, PdvIdentification};
use std::alloc::{AllocError, Global};

/// Appends how the syntaxes are identified.
fn push_identification(
    text: &mut Vec<u8>,
    identification: &PdvIdentification<'_>,
) -> Result<(), AllocError>
    ensures { OnOk result (text.new.items ≡
        text.old.items ++ identification_text (identification_of identification.now)) }
{
    match identification {
        PdvIdentification::Syntaxes {
            s_abstract,
            s_transfer,
        } => {
            push_str(text, "syntaxes:")?;
            Encoded::show(s_abstract, text)?;
            push_str(text, ":")?;
            Encoded::show(s_transfer, text)
        }
        PdvIdentification::Syntax(syntax) => {
            push_str(text, "syntax:")?;
            Encoded::show(syntax, text)
        }
        PdvIdentification::PresentationContextId(id) => {
            push_str(text, "context:")?;
            push_hexadecimal(text, id.as_bytes())
        }
        PdvIdentification::ContextNegotiation {
            presentation_context_id,
            presentation_syntax,
        } => {
            push_str(text, "negotiation:")?;
            push_hexadecimal(text, presentation_context_id.as_bytes())?;
            push_str(text, ":")?;
            Encoded::show(presentation_syntax, text)
        }
        PdvIdentification::TransferSyntax(syntax) => {
            push_str(text, "transfer:")?;
            Encoded::show(syntax, text)
        }
        PdvIdentification::Fixed => push_str(text, "fixed"),
    }
}

/// It has no writer, so nothing is said of its encoding.
impl Shown for EmbeddedPdv<'_> {
    ghost text_of = { λ x. pdv_text (pdv_value x) };

    ghost Encodes = { λ _ encoding. encoding ≡ None };

    fn show(&self, text: &mut Vec<u8>) -> Result<(), AllocError> {
        push_identification(text, &self.identification)?;
        push_str(text, "/")?;
        push_hexadecimal(text, self.data_value)
    }

    fn tell_encoding(
        &self,
        _alloc: Global,
        _buffer: &mut Vec<u8>,
        _text: &mut Vec<u8>,
    ) -> Result<(), AllocError> {
        Ok(())
    }
}
