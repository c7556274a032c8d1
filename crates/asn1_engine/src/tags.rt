//! Tags in the standard's words (X.680 8).
ghost use Rattle.std.specs.Prelude.{◌≡◌, ◌++◌, codes, OnOk, IfSome, IfNone};
ghost use Rattle.asn1_headers.specs.declared.class.Class.TheVariants.{Universal};
ghost use Rattle.asn1_words.specs.Words.{number_text};
ghost use Rattle.asn1_engine.specs.Heads.{tag_text};

use asn1_headers::class::Class;
use asn1_words::words::{push_number, push_str};
use std::alloc::AllocError;

/// The name of the type with a universal tag (X.680 8.6, table 1).
fn universal_name(number: u32) -> Option<&'static str>
    ensures some { IfSome result (λ name. name.now ≡ tag_text Universal number) }
    ensures none { IfNone result (tag_text Universal number ≡ codes "UNIVERSAL " ++ number_text number) }
{
    Some(match number {
        0 => return None,
        1 => "BOOLEAN",
        2 => "INTEGER",
        3 => "BIT STRING",
        4 => "OCTET STRING",
        5 => "NULL",
        6 => "OBJECT IDENTIFIER",
        7 => "ObjectDescriptor",
        8 => "EXTERNAL",
        9 => "REAL",
        10 => "ENUMERATED",
        11 => "EMBEDDED PDV",
        12 => "UTF8String",
        13 => "RELATIVE-OID",
        14 => "TIME",
        16 => "SEQUENCE",
        17 => "SET",
        18 => "NumericString",
        19 => "PrintableString",
        20 => "TeletexString",
        21 => "VideotexString",
        22 => "IA5String",
        23 => "UTCTime",
        24 => "GeneralizedTime",
        25 => "GraphicString",
        26 => "VisibleString",
        27 => "GeneralString",
        28 => "UniversalString",
        29 => "CHARACTER STRING",
        30 => "BMPString",
        31 => "DATE",
        32 => "TIME-OF-DAY",
        33 => "DATE-TIME",
        34 => "DURATION",
        35 => "OID-IRI",
        36 => "RELATIVE-OID-IRI",
        15 => return None,
        37.. => return None,
    })
}

/// Appends a word and a number.
fn push_word(text: &mut Vec<u8>, word: &str, number: u32) -> Result<(), AllocError>
    ensures { OnOk result (text.new.items ≡ text.old.items ++ (word.now ++ number_text number)) }
{
    push_str(text, word)?;
    push_number(text, u64::from(number))
}

/// Appends a tag: its type's name, or `[3]`, `APPLICATION 3`, `PRIVATE 3` or `UNIVERSAL 99`.
pub fn push_tag(text: &mut Vec<u8>, class: Class, number: u32) -> Result<(), AllocError>
    ensures { OnOk result (text.new.items ≡ text.old.items ++ tag_text class number) }
{
    match class {
        Class::Universal => match universal_name(number) {
            Some(name) => push_str(text, name),
            None => push_word(text, "UNIVERSAL ", number),
        },
        Class::Application => push_word(text, "APPLICATION ", number),
        Class::ContextSpecific => {
            push_word(text, "[", number)?;
            push_str(text, "]")
        }
        Class::Private => push_word(text, "PRIVATE ", number),
    }
}
