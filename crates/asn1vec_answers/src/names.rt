//! The names of refusals.
ghost use Rattle.std.specs.Prelude.{◌≡◌, ◌++◌, OnOk};
ghost use Rattle.asn1vec_answers.specs.Names.{name_of_needed, name_of_constraint, word_of_error};
ghost use Rattle.asn1vec_answers.specs.Names.{with_brackets, name_of_error};
ghost use Rattle.asn1vec_answers.specs.Names.{name_of_refusal, name_of_write_refusal};

use crate::text::{push_number, push_str};
use asn1_rs::{DerConstraint, Err as Refusal, Error, Needed, SerializeError};
use std::alloc::AllocError;

/// Appends how many octets are missing.
fn push_needed(text: &mut Vec<u8>, needed: Needed) -> Result<(), AllocError>
    ensures { OnOk result (text.new.items ≡ text.old.items ++ name_of_needed needed) }
{
    match needed {
        Needed::Unknown => push_str(text, "Unknown"),
        Needed::Size(n) => push_number(text, n),
    }
}

/// The name of a constraint.
fn constraint_name(constraint: DerConstraint) -> &'static str
    ensures { result.now ≡ name_of_constraint constraint }
{
    match constraint {
        DerConstraint::IndefiniteLength => "IndefiniteLength",
        DerConstraint::Constructed => "Constructed",
        DerConstraint::NotConstructed => "NotConstructed",
        DerConstraint::MissingTimeZone => "MissingTimeZone",
        DerConstraint::MissingSeconds => "MissingSeconds",
        DerConstraint::UnusedBitsNotZero => "UnusedBitsNotZero",
        DerConstraint::InvalidBoolean => "InvalidBoolean",
        DerConstraint::IntegerEmpty => "IntegerEmpty",
        DerConstraint::IntegerLeadingZeroes => "IntegerLeadingZeroes",
        DerConstraint::IntegerLeadingFF => "IntegerLeadingFF",
        DerConstraint::TagNotShortest => "TagNotShortest",
        DerConstraint::LengthNotShortest => "LengthNotShortest",
        DerConstraint::TrailingOctets => "TrailingOctets",
    }
}

/// Appends a word, and in brackets how many octets are missing.
fn push_with_needed(text: &mut Vec<u8>, word: &str, needed: Needed) -> Result<(), AllocError>
    ensures { OnOk result
        (text.new.items ≡ text.old.items ++ with_brackets word.now (name_of_needed needed)) }
{
    push_str(text, word)?;
    push_str(text, "(")?;
    push_needed(text, needed)?;
    push_str(text, ")")?;
    Ok(())
}

/// Appends a word, and in brackets the constraint that was broken.
fn push_with_constraint(
    text: &mut Vec<u8>,
    word: &str,
    constraint: DerConstraint,
) -> Result<(), AllocError>
    ensures { OnOk result
        (text.new.items ≡ text.old.items ++ with_brackets word.now (name_of_constraint constraint)) }
{
    push_str(text, word)?;
    push_str(text, "(")?;
    push_str(text, constraint_name(constraint))?;
    push_str(text, ")")?;
    Ok(())
}

/// The name of an error whose parts are not told.
fn error_word(error: &Error) -> &'static str
    ensures { result.now ≡ word_of_error error.now }
{
    match error {
        Error::BerTypeError => "BerTypeError",
        Error::BerValueError => "BerValueError",
        Error::InvalidLength => "InvalidLength",
        Error::InvalidValue { .. } => "InvalidValue",
        Error::InvalidTag => "InvalidTag",
        Error::UnknownTag(_) => "UnknownTag",
        Error::UnexpectedTag { .. } => "UnexpectedTag",
        Error::UnexpectedClass { .. } => "UnexpectedClass",
        Error::IndefiniteLengthUnexpected => "IndefiniteLengthUnexpected",
        Error::ConstructExpected => "ConstructExpected",
        Error::ConstructUnexpected => "ConstructUnexpected",
        Error::IntegerTooLarge => "IntegerTooLarge",
        Error::IntegerNegative => "IntegerNegative",
        Error::BerMaxDepth => "BerMaxDepth",
        Error::StringInvalidCharset => "StringInvalidCharset",
        Error::InvalidDateTime => "InvalidDateTime",
        Error::DerConstraintFailed(_) => "DerConstraintFailed",
        Error::LifetimeError => "LifetimeError",
        Error::Unsupported => "Unsupported",
        Error::Incomplete(_) => "Error.Incomplete",
        Error::OutOfMemory => "OutOfMemory",
    }
}

/// Appends the name of an error, with the constraint that was broken or the number of octets that are
/// missing.
fn push_error(text: &mut Vec<u8>, error: &Error) -> Result<(), AllocError>
    ensures { OnOk result (text.new.items ≡ text.old.items ++ name_of_error error.now) }
{
    let word = error_word(error);
    match error {
        Error::DerConstraintFailed(constraint) => push_with_constraint(text, word, *constraint),
        Error::Incomplete(needed) => push_with_needed(text, word, *needed),
        _ => push_str(text, word),
    }
}

/// Appends the name of a reader's refusal.
pub(crate) fn push_refusal(text: &mut Vec<u8>, refusal: &Refusal<Error>) -> Result<(), AllocError>
    ensures { OnOk result (text.new.items ≡ text.old.items ++ name_of_refusal refusal.now) }
{
    match refusal {
        Refusal::Incomplete(needed) => push_with_needed(text, "Incomplete", *needed),
        Refusal::Error(error) => push_error(text, error),
        Refusal::Failure(error) => push_error(text, error),
    }
}

/// Appends the name of a writer's refusal.
pub(crate) fn push_write_refusal(
    text: &mut Vec<u8>,
    refusal: &SerializeError,
) -> Result<(), AllocError>
    ensures { OnOk result (text.new.items ≡ text.old.items ++ name_of_write_refusal refusal.now) }
{
    match refusal {
        SerializeError::ASN1Error(error) => push_error(text, error),
        SerializeError::InvalidClass { .. } => push_str(text, "InvalidClass"),
        SerializeError::InvalidLength => push_str(text, "InvalidLength"),
        SerializeError::IOError(_) => push_str(text, "IOError"),
        SerializeError::OutOfMemory => push_str(text, "OutOfMemory"),
    }
}
