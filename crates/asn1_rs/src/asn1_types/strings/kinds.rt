//! The twelve types of strings of characters, by their tag numbers and what their contents octets say.
ghost use Rattle.std.specs.Prelude.{◌≡◌, ◌↔◌, ◌<◌, ◌∷◌, [], ℕ, List, IsTrue, IsUtf8, false, refl};
ghost use Rattle.std.proofs.Common.{lit<};
ghost use Rattle.x690.specs.Sets.{AllIn};
ghost use Rattle.x690.specs.Laws.Sets.{in_set_utf8};
ghost use Rattle.asn1_headers.specs.Tag.{is_container_number};

use crate::asn1_types::strings::{CodedString, RestrictedString};
use crate::kinds::TagNumber;
use crate::traits::Tagged;
use x690::characters::{Ucs4, Utf16};
use x690::sets::{Ascii, CharacterSet, Numeric, Printable, Visible, all_in};

/// Characters, by the texts that are made of them.
pub trait Repertoire {
    /// The octets are such a text, in UTF-8.
    ghost IsText: { List ℕ → Type 0 };

    /// Whether they are.
    fn is_text(octets: &[u8]) -> bool
        ensures { IsTrue result ↔ IsText octets.now };

    /// A text is UTF-8.
    ghost utf8: { (octets : List ℕ) → IsText octets → IsUtf8 octets };
}

/// The texts of octets of a set.
// These octets are below 80, so a text is judged once, and not as UTF-8 again.
impl<S: CharacterSet> Repertoire for S {
    ghost IsText = { AllIn S.in_set };

    #[inline(always)]
    fn is_text(octets: &[u8]) -> bool {
        all_in::<S>(octets)
    }

    ghost utf8 = { in_set_utf8 S.in_set S.ascii };
}

/// All characters.
#[derive(Debug)]
pub struct Unicode;

impl Repertoire for Unicode {
    ghost IsText = { IsUtf8 };

    #[inline(always)]
    fn is_text(octets: &[u8]) -> bool {
        str::from_utf8(octets).is_ok()
    }

    ghost utf8 = { λ octets text. text };
}

/// A type of strings of characters: its tag number, and what its contents octets say.
pub trait StringKind {
    /// A type with its tag number.
    type Number: Tagged;

    /// Its characters, a [`Repertoire`], where the contents octets are the text; their code, a
    /// [`CharacterCode`](crate::author::CharacterCode), where the text is decoded.
    type Characters;

    /// Its name in debug texts.
    const NAME: &'static str;

    /// The number is one of the low form.
    ghost small: { (Self.Number.TAG).0 < 31 };

    /// It is not that of sequences or sets.
    ghost primitive: { is_container_number (Self.Number.TAG).0 ≡ false };
}

/// Marks [`ObjectDescriptor`].
#[derive(Debug)]
pub struct DescriptorKind;

impl StringKind for DescriptorKind {
    type Number = TagNumber<7>;

    type Characters = Ascii;

    const NAME: &'static str = "ObjectDescriptor";

    ghost small = { lit< tt };

    ghost primitive = { refl };
}

/// Marks [`Utf8String`].
#[derive(Debug)]
pub struct Utf8Kind;

impl StringKind for Utf8Kind {
    type Number = TagNumber<12>;

    type Characters = Unicode;

    const NAME: &'static str = "Utf8String";

    ghost small = { lit< tt };

    ghost primitive = { refl };
}

/// Marks [`NumericString`].
#[derive(Debug)]
pub struct NumericKind;

impl StringKind for NumericKind {
    type Number = TagNumber<18>;

    type Characters = Numeric;

    const NAME: &'static str = "NumericString";

    ghost small = { lit< tt };

    ghost primitive = { refl };
}

/// Marks [`PrintableString`].
#[derive(Debug)]
pub struct PrintableKind;

impl StringKind for PrintableKind {
    type Number = TagNumber<19>;

    type Characters = Printable;

    const NAME: &'static str = "PrintableString";

    ghost small = { lit< tt };

    ghost primitive = { refl };
}

/// Marks [`TeletexString`].
#[derive(Debug)]
pub struct TeletexKind;

impl StringKind for TeletexKind {
    type Number = TagNumber<20>;

    type Characters = Visible;

    const NAME: &'static str = "TeletexString";

    ghost small = { lit< tt };

    ghost primitive = { refl };
}

/// Marks [`VideotexString`].
#[derive(Debug)]
pub struct VideotexKind;

impl StringKind for VideotexKind {
    type Number = TagNumber<21>;

    type Characters = Visible;

    const NAME: &'static str = "VideotexString";

    ghost small = { lit< tt };

    ghost primitive = { refl };
}

/// Marks [`Ia5String`].
#[derive(Debug)]
pub struct Ia5Kind;

impl StringKind for Ia5Kind {
    type Number = TagNumber<22>;

    type Characters = Ascii;

    const NAME: &'static str = "Ia5String";

    ghost small = { lit< tt };

    ghost primitive = { refl };
}

/// Marks [`GraphicString`].
#[derive(Debug)]
pub struct GraphicKind;

impl StringKind for GraphicKind {
    type Number = TagNumber<25>;

    type Characters = Ascii;

    const NAME: &'static str = "GraphicString";

    ghost small = { lit< tt };

    ghost primitive = { refl };
}

/// Marks [`VisibleString`].
#[derive(Debug)]
pub struct VisibleKind;

impl StringKind for VisibleKind {
    type Number = TagNumber<26>;

    type Characters = Visible;

    const NAME: &'static str = "VisibleString";

    ghost small = { lit< tt };

    ghost primitive = { refl };
}

/// Marks [`GeneralString`].
#[derive(Debug)]
pub struct GeneralKind;

impl StringKind for GeneralKind {
    type Number = TagNumber<27>;

    type Characters = Ascii;

    const NAME: &'static str = "GeneralString";

    ghost small = { lit< tt };

    ghost primitive = { refl };
}

/// Marks [`UniversalString`].
#[derive(Debug)]
pub struct UniversalKind;

impl StringKind for UniversalKind {
    type Number = TagNumber<28>;

    type Characters = Ucs4;

    const NAME: &'static str = "UniversalString";

    ghost small = { lit< tt };

    ghost primitive = { refl };
}

/// Marks [`BmpString`].
#[derive(Debug)]
pub struct BmpKind;

impl StringKind for BmpKind {
    type Number = TagNumber<30>;

    type Characters = Utf16;

    const NAME: &'static str = "BmpString";

    ghost small = { lit< tt };

    ghost primitive = { refl };
}

/// `ObjectDescriptor`: a text that describes an object: octets below 80.
pub type ObjectDescriptor<'a> = RestrictedString<'a, DescriptorKind>;

/// `UTF8String`: any text, in UTF-8.
pub type Utf8String<'a> = RestrictedString<'a, Utf8Kind>;

/// `NumericString`: digits and spaces.
pub type NumericString<'a> = RestrictedString<'a, NumericKind>;

/// `PrintableString`: letters, digits, spaces and `'()+,-./:=?`.
pub type PrintableString<'a> = RestrictedString<'a, PrintableKind>;

/// `TeletexString`: octets from 20 to 7f.
pub type TeletexString<'a> = RestrictedString<'a, TeletexKind>;

/// `VideotexString`: octets from 20 to 7f.
pub type VideotexString<'a> = RestrictedString<'a, VideotexKind>;

/// `IA5String`: octets below 80.
pub type Ia5String<'a> = RestrictedString<'a, Ia5Kind>;

/// `GraphicString`: octets below 80.
pub type GraphicString<'a> = RestrictedString<'a, GraphicKind>;

/// `VisibleString`: octets from 20 to 7f.
pub type VisibleString<'a> = RestrictedString<'a, VisibleKind>;

/// `GeneralString`: octets below 80.
pub type GeneralString<'a> = RestrictedString<'a, GeneralKind>;

/// `UniversalString`: any text, a character in four octets, the highest first (X.690 8.23.7).
pub type UniversalString<'a> = CodedString<'a, UniversalKind>;

/// `BMPString`: any text, in UTF-16, the highest octet of a unit first (X.690 8.23.8). Characters past the basic plane
/// are pairs of units, as UTF-16 has them (ISO/IEC 10646); X.690 has no pairs.
pub type BmpString<'a> = CodedString<'a, BmpKind>;

/// The tag numbers of the types whose contents octets are their text, in ascending order.
pub fn numbers_of_strings() -> [u32; 10]
    ensures { result ≡ 7 ∷ 12 ∷ 18 ∷ 19 ∷ 20 ∷ 21 ∷ 22 ∷ 25 ∷ 26 ∷ 27 ∷ [] }
{
    [
        ObjectDescriptor::TAG.0,
        Utf8String::TAG.0,
        NumericString::TAG.0,
        PrintableString::TAG.0,
        TeletexString::TAG.0,
        VideotexString::TAG.0,
        Ia5String::TAG.0,
        GraphicString::TAG.0,
        VisibleString::TAG.0,
        GeneralString::TAG.0,
    ]
}

/// The tag numbers of the types whose text is decoded, in ascending order.
pub fn numbers_of_coded_strings() -> [u32; 2]
    ensures { result ≡ 28 ∷ 30 ∷ [] }
{
    [UniversalString::TAG.0, BmpString::TAG.0]
}
