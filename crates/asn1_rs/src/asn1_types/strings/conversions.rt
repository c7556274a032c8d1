//! Elements as strings.
ghost use Rattle.std.specs.Prelude.{IsUtf8};
ghost use Rattle.std.specs.Char.{is_ascii};
ghost use Rattle.x690.specs.Characters.{utf16_octets_of, ucs4_octets_of};
ghost use Rattle.x690.specs.Sets.{AllIn, is_numeric, is_printable, is_visible};
ghost use Rattle.asn1_rs.specs.Any.{parts_of};
ghost use Rattle.asn1_rs.specs.CodedStrings.{coded_string_leaf};
ghost use Rattle.asn1_rs.specs.Leaf.{LeafConverts};
ghost use Rattle.asn1_rs.specs.Strings.{StringGives};

use crate::asn1_types::any::Any;
use crate::asn1_types::strings::kinds::{
    BmpString, GeneralString, GraphicString, Ia5String, NumericString, ObjectDescriptor,
    PrintableString, TeletexString, UniversalString, Utf8String, VideotexString, VisibleString,
};
use asn1_headers::error::Error;
use std::alloc::Global;

/// The text is the contents octets, which are borrowed, whether the element is primitive or constructed. Refused at
/// another tag number with `UnexpectedTag`, then with `StringInvalidCharset` where the type has no such text.
impl<'a> Any<'a> {
    /// The `ObjectDescriptor`.
    pub fn objectdescriptor(self) -> Result<ObjectDescriptor<'a>, Error>
        ensures { StringGives 7 (AllIn is_ascii) self.entry result }
    {
        self.as_objectdescriptor()
    }

    /// The `ObjectDescriptor`, of an element that stays.
    pub fn as_objectdescriptor(&self) -> Result<ObjectDescriptor<'a>, Error>
        ensures { StringGives 7 (AllIn is_ascii) self.now result }
    {
        self.as_string_of()
    }

    /// The `UTF8String`.
    pub fn utf8string(self) -> Result<Utf8String<'a>, Error>
        ensures { StringGives 12 IsUtf8 self.entry result }
    {
        self.as_utf8string()
    }

    /// The `UTF8String`, of an element that stays.
    pub fn as_utf8string(&self) -> Result<Utf8String<'a>, Error>
        ensures { StringGives 12 IsUtf8 self.now result }
    {
        self.as_string_of()
    }

    /// The `NumericString`.
    pub fn numericstring(self) -> Result<NumericString<'a>, Error>
        ensures { StringGives 18 (AllIn is_numeric) self.entry result }
    {
        self.as_numericstring()
    }

    /// The `NumericString`, of an element that stays.
    pub fn as_numericstring(&self) -> Result<NumericString<'a>, Error>
        ensures { StringGives 18 (AllIn is_numeric) self.now result }
    {
        self.as_string_of()
    }

    /// The `PrintableString`.
    pub fn printablestring(self) -> Result<PrintableString<'a>, Error>
        ensures { StringGives 19 (AllIn is_printable) self.entry result }
    {
        self.as_printablestring()
    }

    /// The `PrintableString`, of an element that stays.
    pub fn as_printablestring(&self) -> Result<PrintableString<'a>, Error>
        ensures { StringGives 19 (AllIn is_printable) self.now result }
    {
        self.as_string_of()
    }

    /// The `TeletexString`.
    pub fn teletexstring(self) -> Result<TeletexString<'a>, Error>
        ensures { StringGives 20 (AllIn is_visible) self.entry result }
    {
        self.as_teletexstring()
    }

    /// The `TeletexString`, of an element that stays.
    pub fn as_teletexstring(&self) -> Result<TeletexString<'a>, Error>
        ensures { StringGives 20 (AllIn is_visible) self.now result }
    {
        self.as_string_of()
    }

    /// The `VideotexString`.
    pub fn videotexstring(self) -> Result<VideotexString<'a>, Error>
        ensures { StringGives 21 (AllIn is_visible) self.entry result }
    {
        self.as_videotexstring()
    }

    /// The `VideotexString`, of an element that stays.
    pub fn as_videotexstring(&self) -> Result<VideotexString<'a>, Error>
        ensures { StringGives 21 (AllIn is_visible) self.now result }
    {
        self.as_string_of()
    }

    /// The `IA5String`.
    pub fn ia5string(self) -> Result<Ia5String<'a>, Error>
        ensures { StringGives 22 (AllIn is_ascii) self.entry result }
    {
        self.as_ia5string()
    }

    /// The `IA5String`, of an element that stays.
    pub fn as_ia5string(&self) -> Result<Ia5String<'a>, Error>
        ensures { StringGives 22 (AllIn is_ascii) self.now result }
    {
        self.as_string_of()
    }

    /// The `GraphicString`.
    pub fn graphicstring(self) -> Result<GraphicString<'a>, Error>
        ensures { StringGives 25 (AllIn is_ascii) self.entry result }
    {
        self.as_graphicstring()
    }

    /// The `GraphicString`, of an element that stays.
    pub fn as_graphicstring(&self) -> Result<GraphicString<'a>, Error>
        ensures { StringGives 25 (AllIn is_ascii) self.now result }
    {
        self.as_string_of()
    }

    /// The `VisibleString`.
    pub fn visiblestring(self) -> Result<VisibleString<'a>, Error>
        ensures { StringGives 26 (AllIn is_visible) self.entry result }
    {
        self.as_visiblestring()
    }

    /// The `VisibleString`, of an element that stays.
    pub fn as_visiblestring(&self) -> Result<VisibleString<'a>, Error>
        ensures { StringGives 26 (AllIn is_visible) self.now result }
    {
        self.as_string_of()
    }

    /// The `GeneralString`.
    pub fn generalstring(self) -> Result<GeneralString<'a>, Error>
        ensures { StringGives 27 (AllIn is_ascii) self.entry result }
    {
        self.as_generalstring()
    }

    /// The `GeneralString`, of an element that stays.
    pub fn as_generalstring(&self) -> Result<GeneralString<'a>, Error>
        ensures { StringGives 27 (AllIn is_ascii) self.now result }
    {
        self.as_string_of()
    }
}

/// The text is decoded from the contents octets, whether the element is primitive or constructed. Refused at another
/// tag number with `UnexpectedTag`, then with `StringInvalidCharset` where the octets are no text in the code, then
/// where memory is, with `OutOfMemory`.
impl Any<'_> {
    /// The `BmpString`.
    pub fn bmpstring(self, alloc: Global) -> Result<BmpString<'static>, Error>
        ensures { LeafConverts (coded_string_leaf 30 utf16_octets_of) (parts_of self.entry) result }
    {
        self.as_bmpstring(alloc)
    }

    /// The `BmpString`, of an element that stays.
    pub fn as_bmpstring(&self, alloc: Global) -> Result<BmpString<'static>, Error>
        ensures { LeafConverts (coded_string_leaf 30 utf16_octets_of) (parts_of self.now) result }
    {
        self.as_coded_string(alloc)
    }

    /// The `UniversalString`.
    pub fn universalstring(self, alloc: Global) -> Result<UniversalString<'static>, Error>
        ensures { LeafConverts (coded_string_leaf 28 ucs4_octets_of) (parts_of self.entry) result }
    {
        self.as_universalstring(alloc)
    }

    /// The `UniversalString`, of an element that stays.
    pub fn as_universalstring(&self, alloc: Global) -> Result<UniversalString<'static>, Error>
        ensures { LeafConverts (coded_string_leaf 28 ucs4_octets_of) (parts_of self.now) result }
    {
        self.as_coded_string(alloc)
    }
}
