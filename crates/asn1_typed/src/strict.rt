//! Whether octets are the strict encoding of a value of a type.
ghost use Rattle.std.specs.Prelude.{ℕ, ◌≡◌, ◌++◌, List, true, codes, IfOk, OnOk};
ghost use Rattle.asn1_schema.specs.Sound.{is_sound};
ghost use Rattle.asn1_typed.specs.Strict.{FindsStrict, HasEncoding, IsDifferenceLine, IsNoEncodingLine};
ghost use Rattle.asn1_typed.specs.Strict.{IsVerdictLine, strict_value_text};

use crate::defaults::default_at;
use crate::input::Input;
use crate::kinds::{MOST_DEPTH, push_named};
use crate::order::descent;
use crate::reading;
use crate::refusals::{push_number_and_names, push_octet, push_refusal};
use asn1_engine::{Finding, RunError};
use asn1_schema::build::Schema;
use asn1_schema::encode::{EncodeError, encode_der_vec};
use asn1_schema::refusal::{Reason, Refusal};
use asn1_schema::strictness::{NotStrict, decode_strict};
use asn1_schema::tape::Item;
use asn1_words::words::push_str;
use std::alloc::{AllocError, Global};

/// Appends that octets are the strict encoding of a value.
fn push_strict(
    text: &mut Vec<u8>,
    input: Input<'_>,
    schema: &Schema<'_>,
    of: usize,
) -> Result<(), AllocError>
    ensures { OnOk result (text.new.items ≡ text.old.items ++
        strict_value_text schema.now of input.entry) }
{
    push_str(text, input.name)?;
    push_str(text, ": strict DER of ")?;
    push_named(text, schema, of, MOST_DEPTH)?;
    push_str(text, "\n")
}

/// The strict encoding of the value of a tape that has one.
fn encoding_of(
    alloc: Global,
    schema: &Schema<'_>,
    of: usize,
    tape: &[Item<'_>],
) -> Result<Vec<u8>, AllocError>
    requires sound { is_sound schema.now.nodes.items ≡ true }
    requires encoded { HasEncoding schema.now.nodes.items of tape.now }
{
    match encode_der_vec(alloc, &schema.nodes, of, reading::MOST_DEPTH, tape) {
        Ok(octets) => Ok(octets),
        Err(EncodeError::OutOfMemory) => Err(AllocError),
        Err(EncodeError::Refused) => unreachable!(),
    }
}

/// The place of an octet of a type, where nothing is refused.
fn place_of(of: usize, octet: usize) -> Refusal
    ensures { result.octet ≡ octet }
{
    Refusal {
        octet,
        of,
        row: of,
        field: None,
        reason: Reason::Nothing,
    }
}

/// Appends at which octet the strict encoding of the value differs, and where a default stands that it leaves out, with
/// the names of the parts that lead there.
fn push_difference(
    alloc: Global,
    text: &mut Vec<u8>,
    input: Input<'_>,
    schema: &Schema<'_>,
    of: usize,
    octet: usize,
    encoding: &[u8],
) -> Result<(), AllocError>
    ensures { OnOk result ((line : List ℕ) × IsDifferenceLine schema.now of input.entry octet line ×
        (text.new.items ≡ text.old.items ++ line)) }
{
    let found = default_at(input.octets, encoding);
    push_octet(alloc, text, input, schema, of, &place_of(of, octet))?;
    push_str(text, " (")?;
    push_named(text, schema, of, MOST_DEPTH)?;
    push_str(
        text,
        "): the strict encoding of the value differs here; a default stands at octet ",
    )?;
    push_number_and_names(alloc, text, input, schema, of, &place_of(of, found))?;
    push_str(text, "\n")?;
    Ok(())
}

/// Appends that a value has no strict encoding, and where a set-of does not ascend, with the names of the parts that
/// lead there.
fn push_no_encoding(
    alloc: Global,
    text: &mut Vec<u8>,
    input: Input<'_>,
    schema: &Schema<'_>,
    of: usize,
) -> Result<(), AllocError>
    ensures { OnOk result ((line : List ℕ) × IsNoEncodingLine schema.now of input.entry line ×
        (text.new.items ≡ text.old.items ++ line)) }
{
    let found = descent(alloc, &schema.nodes, of, input.octets)?;
    push_octet(alloc, text, input, schema, of, &place_of(of, found))?;
    push_str(text, " (")?;
    push_named(text, schema, of, MOST_DEPTH)?;
    push_str(
        text,
        "): the value has no strict encoding: a SET OF does not ascend\n",
    )?;
    Ok(())
}

/// Appends whether octets are the one strict encoding of a value of a type, and if not, where and why.
pub fn check_typed(
    alloc: Global,
    text: &mut Vec<u8>,
    schema: &Schema<'_>,
    of: usize,
    input: Input<'_>,
) -> Result<Finding, RunError>
    requires { is_sound schema.now.nodes.items ≡ true }
    ensures finds { IfOk result (FindsStrict schema.now.nodes.items of input.entry.octets.now) }
    ensures tells { IfOk result (λ finding. (line : List ℕ) ×
        IsVerdictLine schema.now of input.entry finding line × (text.new.items ≡ text.old.items ++ line)) }
{
    let mut tape = Vec::new(alloc);
    let mut refusal = Refusal::none();
    match decode_strict(
        alloc,
        &schema.nodes,
        of,
        reading::MOST_DEPTH,
        input.octets,
        &mut tape,
        &mut refusal,
    ) {
        Ok(()) => {
            push_strict(text, input, schema, of)?;
            Ok(Finding::Holds)
        }
        Err(NotStrict::OutOfMemory) => Err(RunError::OutOfMemory),
        Err(NotStrict::NotDer(_)) => {
            push_refusal(alloc, text, input, schema, of, &refusal)?;
            Ok(Finding::Refused)
        }
        Err(NotStrict::Differs(octet)) => {
            let encoding = encoding_of(alloc, schema, of, &tape)?;
            push_difference(alloc, text, input, schema, of, octet, &encoding)?;
            Ok(Finding::Refused)
        }
        Err(NotStrict::NoEncoding) => {
            push_no_encoding(alloc, text, input, schema, of)?;
            Ok(Finding::Refused)
        }
    }
}
