//! The names of types.
ghost use Rattle.std.specs.Prelude.{◌≡◌, ◌≢◌, All, MatchOption};
ghost use Rattle.asn1vec_answers.specs.declared.types.TypeName.{TypeName};
ghost use Rattle.asn1vec_answers.specs.Types.{name_of_type, meaning_of, Names, NamesNone};

use crate::request::Rule;

/// The types that a line can name.
#[derive(Clone, Copy, Debug, PartialEq, Eq)]
pub(crate) enum TypeName {
    U8,
    U16,
    U32,
    U64,
    U128,
    I8,
    I16,
    I32,
    I64,
    I128,
    Any,
    Bool,
    Null,
    Enumerated,
    Integer,
    Octets,
    Bits,
    Eoc,
    VecU8,
    VecU32,
    VecBool,
    VecVecU8,
    SetOfU8,
    BTreeSetU8,
    Sequence,
    Set,
    SeqOfU32,
    Explicit0U32,
    Explicit31U8,
    VecExplicit31U8,
    OptU8,
    HashSetI8,
    Implicit1VecU16,
    Oid,
    Utf8,
    Numeric,
    Printable,
    Teletex,
    Videotex,
    Ia5,
    Graphic,
    Visible,
    General,
    Descriptor,
    Universal,
    Bmp,
    UtcTime,
    GenTime,
    Pdv,
    X509Name,
}

/// All of them, in this order.
const TYPES: [TypeName; 50] = [
    TypeName::U8,
    TypeName::U16,
    TypeName::U32,
    TypeName::U64,
    TypeName::U128,
    TypeName::I8,
    TypeName::I16,
    TypeName::I32,
    TypeName::I64,
    TypeName::I128,
    TypeName::Any,
    TypeName::Bool,
    TypeName::Null,
    TypeName::Enumerated,
    TypeName::Integer,
    TypeName::Octets,
    TypeName::Bits,
    TypeName::Eoc,
    TypeName::VecU8,
    TypeName::VecU32,
    TypeName::VecBool,
    TypeName::VecVecU8,
    TypeName::SetOfU8,
    TypeName::BTreeSetU8,
    TypeName::Sequence,
    TypeName::Set,
    TypeName::SeqOfU32,
    TypeName::Explicit0U32,
    TypeName::Explicit31U8,
    TypeName::VecExplicit31U8,
    TypeName::OptU8,
    TypeName::HashSetI8,
    TypeName::Implicit1VecU16,
    TypeName::Oid,
    TypeName::Utf8,
    TypeName::Numeric,
    TypeName::Printable,
    TypeName::Teletex,
    TypeName::Videotex,
    TypeName::Ia5,
    TypeName::Graphic,
    TypeName::Visible,
    TypeName::General,
    TypeName::Descriptor,
    TypeName::Universal,
    TypeName::Bmp,
    TypeName::UtcTime,
    TypeName::GenTime,
    TypeName::Pdv,
    TypeName::X509Name,
];

impl TypeName {
    /// What a line names the type by.
    fn name(self) -> &'static [u8]
        ensures { result.now ≡ name_of_type self }
    {
        match self {
            TypeName::U8 => b"u8",
            TypeName::U16 => b"u16",
            TypeName::U32 => b"u32",
            TypeName::U64 => b"u64",
            TypeName::U128 => b"u128",
            TypeName::I8 => b"i8",
            TypeName::I16 => b"i16",
            TypeName::I32 => b"i32",
            TypeName::I64 => b"i64",
            TypeName::I128 => b"i128",
            TypeName::Any => b"any",
            TypeName::Bool => b"bool",
            TypeName::Null => b"null",
            TypeName::Enumerated => b"enumerated",
            TypeName::Integer => b"integer",
            TypeName::Octets => b"octets",
            TypeName::Bits => b"bits",
            TypeName::Eoc => b"eoc",
            TypeName::VecU8 => b"vec.u8",
            TypeName::VecU32 => b"vec.u32",
            TypeName::VecBool => b"vec.bool",
            TypeName::VecVecU8 => b"vec.vec.u8",
            TypeName::SetOfU8 => b"setof.u8",
            TypeName::BTreeSetU8 => b"btreeset.u8",
            TypeName::Sequence => b"sequence",
            TypeName::Set => b"set",
            TypeName::SeqOfU32 => b"seqof.u32",
            TypeName::Explicit0U32 => b"explicit0.u32",
            TypeName::Explicit31U8 => b"explicit31.u8",
            TypeName::VecExplicit31U8 => b"vec.explicit31.u8",
            TypeName::OptU8 => b"opt.u8",
            TypeName::HashSetI8 => b"hashset.i8",
            TypeName::Implicit1VecU16 => b"implicit1.vec.u16",
            TypeName::Oid => b"oid",
            TypeName::Utf8 => b"utf8",
            TypeName::Numeric => b"numeric",
            TypeName::Printable => b"printable",
            TypeName::Teletex => b"teletex",
            TypeName::Videotex => b"videotex",
            TypeName::Ia5 => b"ia5",
            TypeName::Graphic => b"graphic",
            TypeName::Visible => b"visible",
            TypeName::General => b"general",
            TypeName::Descriptor => b"descriptor",
            TypeName::Universal => b"universal",
            TypeName::Bmp => b"bmp",
            TypeName::UtcTime => b"utctime",
            TypeName::GenTime => b"gentime",
            TypeName::Pdv => b"pdv",
            TypeName::X509Name => b"x509name",
        }
    }

    /// Whether the name is there by the rule.
    fn is_there(self, rule: Rule) -> bool
        ensures { result ≡ (meaning_of self).is_there rule }
    {
        match (self, rule) {
            (TypeName::Eoc, Rule::Der) => false,
            (TypeName::X509Name, Rule::Ber) => false,
            (_, Rule::Ber | Rule::Der) => true,
        }
    }
}

/// The first of these types that has the name.
fn type_among(types: &[TypeName], name: &[u8]) -> Option<TypeName>
    ensures { MatchOption result (All (λ t. name.now ≢ name_of_type t) types.now)
        (λ t. name.now ≡ name_of_type t) }
{
    let place = types.iter().position(|t| name == t.name())?;
    Some(types[place])
}

/// The type of a name.
fn type_of(name: &[u8]) -> Option<TypeName>
    ensures { MatchOption result ((t : TypeName) → name.now ≢ name_of_type t)
        (λ t. name.now ≡ name_of_type t) }
{
    type_among(&TYPES, name)
}

/// The type that has the name by the rule.
pub(crate) fn type_named(rule: Rule, name: &[u8]) -> Option<TypeName>
    ensures { MatchOption result (NamesNone rule name.now) (λ t. Names rule name.now t) }
{
    let t = type_of(name)?;
    if t.is_there(rule) { Some(t) } else { None }
}
