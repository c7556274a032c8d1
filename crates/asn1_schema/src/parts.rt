//! The fields of a sequence and the arms of a choice, with their names.
ghost use Rattle.std.specs.Prelude.{◌≡◌};
ghost use Rattle.asn1_schema.specs.declared.parts.Omission.TheVariants as omissions;

/// Whether a field may be left out.
#[derive(Debug, Clone, Copy)]
pub enum Omission<'n> {
    /// It may not.
    Never,
    /// It may (OPTIONAL).
    Allowed,
    /// It may, and then has the value that these octets encode (DEFAULT).
    Default(&'n [u8]),
}

/// A field of a sequence.
#[derive(Debug, Clone, Copy)]
pub struct Part<'n> {
    /// Its name.
    pub name: &'n str,
    /// The place of its type.
    pub of: usize,
    /// Whether it may be left out.
    pub omission: Omission<'n>,
}

/// An arm of a choice.
#[derive(Debug, Clone, Copy)]
pub struct ChoiceArm<'n> {
    /// Its name.
    pub name: &'n str,
    /// The place of its type.
    pub of: usize,
}

/// A field that may not be left out.
pub fn required<'n>(name: &'n str, of: usize) -> Part<'n>
    ensures name { result.name.now ≡ name.now }
    ensures of { result.of ≡ of }
    ensures omission { result.omission ≡ omissions.Never }
{
    Part {
        name,
        of,
        omission: Omission::Never,
    }
}

/// A field that may be left out (OPTIONAL).
pub fn optional<'n>(name: &'n str, of: usize) -> Part<'n>
    ensures name { result.name.now ≡ name.now }
    ensures of { result.of ≡ of }
    ensures omission { result.omission ≡ omissions.Allowed }
{
    Part {
        name,
        of,
        omission: Omission::Allowed,
    }
}

/// A field that has a value where it is left out (DEFAULT), of which these are the octets.
pub fn default<'n>(name: &'n str, of: usize, octets: &'n [u8]) -> Part<'n>
    ensures name { result.name.now ≡ name.now }
    ensures of { result.of ≡ of }
    ensures omission { result.omission ≡ omissions.Default octets.entry }
{
    Part {
        name,
        of,
        omission: Omission::Default(octets),
    }
}

/// An arm of a choice.
pub fn arm<'n>(name: &'n str, of: usize) -> ChoiceArm<'n>
    ensures name { result.name.now ≡ name.now }
    ensures of { result.of ≡ of }
{
    ChoiceArm { name, of }
}
