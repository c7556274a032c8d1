//! Tag numbers (X.690 8.1.2, X.680 8.6).
ghost use Rattle.std.specs.Prelude.{◌≡◌, ◌≢◌, ◌≤◌, ◌<◌, length, Some, IfSome, IfNone, MatchResult, []};
ghost use Rattle.asn1_headers.specs.Error.{IsInvalidValue, IsInvalidValueOf};
ghost use Rattle.asn1_headers.specs.Message.{IsLongestBeginning};
ghost use Rattle.asn1_headers.specs.Tag.{universal_name, tag_name_text, is_container};
ghost use Rattle.asn1_headers.specs.declared.error.Error.TheVariants as errors;

use crate::error::Error;
use crate::message::Message;
use std::fmt;

/// A tag number.
#[derive(Debug, Clone, Copy, PartialEq, Eq)]
pub struct Tag(pub u32);

impl Tag {
    /// The end of the contents of an indefinite length (X.690 8.1.5).
    pub const EndOfContent: Tag = Tag(0);

    /// A truth value (X.690 8.2).
    pub const Boolean: Tag = Tag(1);

    /// An integer (X.690 8.3).
    pub const Integer: Tag = Tag(2);

    /// A bit string (X.690 8.6).
    pub const BitString: Tag = Tag(3);

    /// An octet string (X.690 8.7).
    pub const OctetString: Tag = Tag(4);

    /// The null value (X.690 8.8).
    pub const Null: Tag = Tag(5);

    /// An object identifier (X.690 8.19).
    pub const Oid: Tag = Tag(6);

    /// A text that describes an object (X.690 8.25).
    pub const ObjectDescriptor: Tag = Tag(7);

    /// A value of a type that is named beside it (X.690 8.18).
    pub const External: Tag = Tag(8);

    /// A real number (X.690 8.5).
    pub const RealType: Tag = Tag(9);

    /// One of the numbers that a type names (X.690 8.4).
    pub const Enumerated: Tag = Tag(10);

    /// A value of another syntax, with what identifies that (X.690 8.17).
    pub const EmbeddedPdv: Tag = Tag(11);

    /// A text in UTF-8 (X.690 8.23).
    pub const Utf8String: Tag = Tag(12);

    /// An object identifier that goes on from another one (X.690 8.20).
    pub const RelativeOid: Tag = Tag(13);

    /// A sequence of components, or of items of one type (X.690 8.9, 8.10).
    pub const Sequence: Tag = Tag(16);

    /// A set of components, or of items of one type (X.690 8.11, 8.12).
    pub const Set: Tag = Tag(17);

    /// A text of digits and spaces (X.690 8.23).
    pub const NumericString: Tag = Tag(18);

    /// A text of letters, digits and some signs (X.690 8.23).
    pub const PrintableString: Tag = Tag(19);

    /// A text of the teletex sets (X.690 8.23).
    pub const TeletexString: Tag = Tag(20);
    /// The same as `TeletexString`.
    pub const T61String: Tag = Tag(20);

    /// A text of the videotex sets (X.690 8.23).
    pub const VideotexString: Tag = Tag(21);

    /// A text in the International Alphabet No. 5 (X.690 8.23).
    pub const Ia5String: Tag = Tag(22);

    /// A time with two digits of the year (X.690 8.25).
    pub const UtcTime: Tag = Tag(23);

    /// A time with four digits of the year (X.690 8.25).
    pub const GeneralizedTime: Tag = Tag(24);

    /// A text of registered graphic sets (X.690 8.23).
    pub const GraphicString: Tag = Tag(25);

    /// A text of the printing characters of ASCII (X.690 8.23).
    pub const VisibleString: Tag = Tag(26);

    /// A text of registered graphic and control sets (X.690 8.23).
    pub const GeneralString: Tag = Tag(27);

    /// A text of four octets a character (X.690 8.23).
    pub const UniversalString: Tag = Tag(28);

    /// A text with what identifies its characters (X.690 8.24).
    pub const CharacterString: Tag = Tag(29);

    /// A text of two octets a character (X.690 8.23).
    pub const BmpString: Tag = Tag(30);

    /// Refuses another tag with `UnexpectedTag`: the one given is expected, and this one is the actual one.
    pub fn assert_eq(&self, tag: Tag) -> Result<(), Error>
        ensures { MatchResult result (λ _. self.now ≡ tag)
            (λ e. (self.now ≢ tag) × (e ≡ errors.UnexpectedTag (Some tag) self.now)) }
    {
        if self.0 == tag.0 {
            Ok(())
        } else {
            Err(Error::unexpected_tag(Some(tag), *self))
        }
    }

    /// The refusal `InvalidValue` of this tag, with a text that is kept as by `Message::short`. This takes no memory.
    ///
    /// One with a longer text is made by `Error::invalid_value`.
    pub fn invalid_value(&self, msg: &str) -> Error
        ensures whole { length msg.now ≤ Message.CAPACITY →
            IsInvalidValue self.now msg.now result }
        ensures truncated { Message.CAPACITY < length msg.now → IsInvalidValueOf self.now
            (IsLongestBeginning Message.CAPACITY msg.now) result }
    {
        Error::invalid_value(*self, Message::short(msg))
    }

    /// Whether it is the tag of sequence or of set.
    pub fn is_container(self) -> bool
        ensures { result ≡ is_container self }
    {
        self.0 == 16 || self.0 == 17
    }

    /// The name of the universal type with this number.
    pub(crate) fn name(self) -> Option<&'static str>
        ensures some { IfSome result
            (λ name. (name.now ≡ tag_name_text self.0) × (universal_name self.0 ≢ [])) }
        ensures none { IfNone result (universal_name self.0 ≡ []) }
    {
        let name = match self.0 {
            0 => "EndOfContent",
            1 => "Boolean",
            2 => "Integer",
            3 => "BitString",
            4 => "OctetString",
            5 => "Null",
            6 => "Oid",
            7 => "ObjectDescriptor",
            8 => "External",
            9 => "RealType",
            10 => "Enumerated",
            11 => "EmbeddedPdv",
            12 => "Utf8String",
            13 => "RelativeOid",
            16 => "Sequence",
            17 => "Set",
            18 => "NumericString",
            19 => "PrintableString",
            20 => "TeletexString",
            21 => "VideotexString",
            22 => "Ia5String",
            23 => "UtcTime",
            24 => "GeneralizedTime",
            25 => "GraphicString",
            26 => "VisibleString",
            27 => "GeneralString",
            28 => "UniversalString",
            29 => "CharacterString",
            30 => "BmpString",
            14 | 15 => return None,
            31.. => return None,
        };
        Some(name)
    }
}

/// Each constant has the number of its universal type (X.680 8.6, table 1).
///
/// A law: nothing runs.
pub fn universal_types_are_numbered()
    ensures end_of_content { (Tag.EndOfContent).0 ≡ 0 }
    ensures boolean { (Tag.Boolean).0 ≡ 1 }
    ensures integer { (Tag.Integer).0 ≡ 2 }
    ensures bit_string { (Tag.BitString).0 ≡ 3 }
    ensures octet_string { (Tag.OctetString).0 ≡ 4 }
    ensures null { (Tag.Null).0 ≡ 5 }
    ensures oid { (Tag.Oid).0 ≡ 6 }
    ensures object_descriptor { (Tag.ObjectDescriptor).0 ≡ 7 }
    ensures external { (Tag.External).0 ≡ 8 }
    ensures real_type { (Tag.RealType).0 ≡ 9 }
    ensures enumerated { (Tag.Enumerated).0 ≡ 10 }
    ensures embedded_pdv { (Tag.EmbeddedPdv).0 ≡ 11 }
    ensures utf8_string { (Tag.Utf8String).0 ≡ 12 }
    ensures relative_oid { (Tag.RelativeOid).0 ≡ 13 }
    ensures sequence { (Tag.Sequence).0 ≡ 16 }
    ensures set { (Tag.Set).0 ≡ 17 }
    ensures numeric_string { (Tag.NumericString).0 ≡ 18 }
    ensures printable_string { (Tag.PrintableString).0 ≡ 19 }
    ensures teletex_string { (Tag.TeletexString).0 ≡ 20 }
    ensures t61_string { (Tag.T61String).0 ≡ 20 }
    ensures videotex_string { (Tag.VideotexString).0 ≡ 21 }
    ensures ia5_string { (Tag.Ia5String).0 ≡ 22 }
    ensures utc_time { (Tag.UtcTime).0 ≡ 23 }
    ensures generalized_time { (Tag.GeneralizedTime).0 ≡ 24 }
    ensures graphic_string { (Tag.GraphicString).0 ≡ 25 }
    ensures visible_string { (Tag.VisibleString).0 ≡ 26 }
    ensures general_string { (Tag.GeneralString).0 ≡ 27 }
    ensures universal_string { (Tag.UniversalString).0 ≡ 28 }
    ensures character_string { (Tag.CharacterString).0 ≡ 29 }
    ensures bmp_string { (Tag.BmpString).0 ≡ 30 }
{}

impl From<u32> for Tag {
    ghost from_gives = { λ number tag. tag.0 ≡ number };

    fn from(number: u32) -> Tag {
        Tag(number)
    }
}

impl fmt::Display for Tag {
    ghost output = { λ tag. Some (tag_name_text tag.0) };

    fn fmt<W: fmt::Write>(&self, f: &mut fmt::Formatter<W>) -> fmt::Result {
        let number = self.0;
        match self.name() {
            Some(name) => write!(f, "{name}"),
            None => write!(f, "Tag({number} / 0x{number:x})"),
        }
    }
}
