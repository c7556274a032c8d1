//! The leaf types of the library as fields by DER, each by an impl without bounds.
ghost use Rattle.std.specs.Prelude.{refl};
ghost use Rattle.asn1_rs.specs.Structs.Reading.{lawful_numbered, numbered_of};

use crate::asn1_types::bit_string::BitString;
use crate::asn1_types::boolean::Boolean;
use crate::asn1_types::enumerated::Enumerated;
use crate::asn1_types::integer::octets::Integer;
use crate::asn1_types::kept::kinds::{Sequence, Set};
use crate::asn1_types::null::Null;
use crate::asn1_types::octet_string::OctetString;
use crate::asn1_types::oid::Oid;
use crate::asn1_types::strings::kinds::{
    BmpString, GeneralString, GraphicString, Ia5String, NumericString, ObjectDescriptor,
    PrintableString, TeletexString, UniversalString, Utf8String, VideotexString, VisibleString,
};
use crate::asn1_types::times::generalized_time::GeneralizedTime;
use crate::asn1_types::times::utc_time::UtcTime;
use crate::structs::field::LawfulType;
use crate::structs::reading::{ReadsType, left_out_by_der, type_by_der};
use crate::traits::FromDer;
use asn1_headers::content::DerParser;
use asn1_headers::error::{Error, ParseResult};
use std::alloc::Global;

// written by tools/leaves.py: from here
impl<'a> ReadsType<'a, DerParser> for bool {
    ghost numbered = { numbered_of ⟦<bool as LawfulType>⟧.type_laws };

    ghost type_gives = { ⟦<bool as FromDer<'a, Error>>⟧.der_gives };

    ghost lawful_type = { lawful_numbered ⟦<bool as LawfulType>⟧.type_laws refl };

    #[inline(always)]
    fn is_left_out(octets: &'a [u8]) -> bool {
        left_out_by_der::<bool>(octets)
    }

    #[inline(always)]
    fn read_type(alloc: Global, octets: &'a [u8]) -> ParseResult<'a, bool, Error> {
        type_by_der(alloc, octets)
    }
}

impl<'a> ReadsType<'a, DerParser> for Boolean {
    ghost numbered = { numbered_of ⟦<Boolean as LawfulType>⟧.type_laws };

    ghost type_gives = { ⟦<Boolean as FromDer<'a, Error>>⟧.der_gives };

    ghost lawful_type = { lawful_numbered ⟦<Boolean as LawfulType>⟧.type_laws refl };

    #[inline(always)]
    fn is_left_out(octets: &'a [u8]) -> bool {
        left_out_by_der::<Boolean>(octets)
    }

    #[inline(always)]
    fn read_type(alloc: Global, octets: &'a [u8]) -> ParseResult<'a, Boolean, Error> {
        type_by_der(alloc, octets)
    }
}

impl<'a> ReadsType<'a, DerParser> for () {
    ghost numbered = { numbered_of ⟦<() as LawfulType>⟧.type_laws };

    ghost type_gives = { ⟦<() as FromDer<'a, Error>>⟧.der_gives };

    ghost lawful_type = { lawful_numbered ⟦<() as LawfulType>⟧.type_laws refl };

    #[inline(always)]
    fn is_left_out(octets: &'a [u8]) -> bool {
        left_out_by_der::<()>(octets)
    }

    #[inline(always)]
    fn read_type(alloc: Global, octets: &'a [u8]) -> ParseResult<'a, (), Error> {
        type_by_der(alloc, octets)
    }
}

impl<'a> ReadsType<'a, DerParser> for Null {
    ghost numbered = { numbered_of ⟦<Null as LawfulType>⟧.type_laws };

    ghost type_gives = { ⟦<Null as FromDer<'a, Error>>⟧.der_gives };

    ghost lawful_type = { lawful_numbered ⟦<Null as LawfulType>⟧.type_laws refl };

    #[inline(always)]
    fn is_left_out(octets: &'a [u8]) -> bool {
        left_out_by_der::<Null>(octets)
    }

    #[inline(always)]
    fn read_type(alloc: Global, octets: &'a [u8]) -> ParseResult<'a, Null, Error> {
        type_by_der(alloc, octets)
    }
}

impl<'a> ReadsType<'a, DerParser> for Enumerated {
    ghost numbered = { numbered_of ⟦<Enumerated as LawfulType>⟧.type_laws };

    ghost type_gives = { ⟦<Enumerated as FromDer<'a, Error>>⟧.der_gives };

    ghost lawful_type = { lawful_numbered ⟦<Enumerated as LawfulType>⟧.type_laws refl };

    #[inline(always)]
    fn is_left_out(octets: &'a [u8]) -> bool {
        left_out_by_der::<Enumerated>(octets)
    }

    #[inline(always)]
    fn read_type(alloc: Global, octets: &'a [u8]) -> ParseResult<'a, Enumerated, Error> {
        type_by_der(alloc, octets)
    }
}

impl<'a> ReadsType<'a, DerParser> for Integer<'a> {
    ghost numbered = { numbered_of ⟦<Integer<'a> as LawfulType>⟧.type_laws };

    ghost type_gives = { ⟦<Integer<'a> as FromDer<'a, Error>>⟧.der_gives };

    ghost lawful_type = { lawful_numbered ⟦<Integer<'a> as LawfulType>⟧.type_laws refl };

    #[inline(always)]
    fn is_left_out(octets: &'a [u8]) -> bool {
        left_out_by_der::<Integer<'a>>(octets)
    }

    #[inline(always)]
    fn read_type(alloc: Global, octets: &'a [u8]) -> ParseResult<'a, Integer<'a>, Error> {
        type_by_der(alloc, octets)
    }
}

impl<'a> ReadsType<'a, DerParser> for BitString<'a> {
    ghost numbered = { numbered_of ⟦<BitString<'a> as LawfulType>⟧.type_laws };

    ghost type_gives = { ⟦<BitString<'a> as FromDer<'a, Error>>⟧.der_gives };

    ghost lawful_type = { lawful_numbered ⟦<BitString<'a> as LawfulType>⟧.type_laws refl };

    #[inline(always)]
    fn is_left_out(octets: &'a [u8]) -> bool {
        left_out_by_der::<BitString<'a>>(octets)
    }

    #[inline(always)]
    fn read_type(alloc: Global, octets: &'a [u8]) -> ParseResult<'a, BitString<'a>, Error> {
        type_by_der(alloc, octets)
    }
}

impl<'a> ReadsType<'a, DerParser> for OctetString<'a> {
    ghost numbered = { numbered_of ⟦<OctetString<'a> as LawfulType>⟧.type_laws };

    ghost type_gives = { ⟦<OctetString<'a> as FromDer<'a, Error>>⟧.der_gives };

    ghost lawful_type = { lawful_numbered ⟦<OctetString<'a> as LawfulType>⟧.type_laws refl };

    #[inline(always)]
    fn is_left_out(octets: &'a [u8]) -> bool {
        left_out_by_der::<OctetString<'a>>(octets)
    }

    #[inline(always)]
    fn read_type(alloc: Global, octets: &'a [u8]) -> ParseResult<'a, OctetString<'a>, Error> {
        type_by_der(alloc, octets)
    }
}

impl<'a> ReadsType<'a, DerParser> for &'a [u8] {
    ghost numbered = { numbered_of ⟦<&'a [u8] as LawfulType>⟧.type_laws };

    ghost type_gives = { ⟦<&'a [u8] as FromDer<'a, Error>>⟧.der_gives };

    ghost lawful_type = { lawful_numbered ⟦<&'a [u8] as LawfulType>⟧.type_laws refl };

    #[inline(always)]
    fn is_left_out(octets: &'a [u8]) -> bool {
        left_out_by_der::<&'a [u8]>(octets)
    }

    #[inline(always)]
    fn read_type(alloc: Global, octets: &'a [u8]) -> ParseResult<'a, &'a [u8], Error> {
        type_by_der(alloc, octets)
    }
}

impl<'a> ReadsType<'a, DerParser> for &'a str {
    ghost numbered = { numbered_of ⟦<&'a str as LawfulType>⟧.type_laws };

    ghost type_gives = { ⟦<&'a str as FromDer<'a, Error>>⟧.der_gives };

    ghost lawful_type = { lawful_numbered ⟦<&'a str as LawfulType>⟧.type_laws refl };

    #[inline(always)]
    fn is_left_out(octets: &'a [u8]) -> bool {
        left_out_by_der::<&'a str>(octets)
    }

    #[inline(always)]
    fn read_type(alloc: Global, octets: &'a [u8]) -> ParseResult<'a, &'a str, Error> {
        type_by_der(alloc, octets)
    }
}

impl<'a> ReadsType<'a, DerParser> for Sequence<'a> {
    ghost numbered = { numbered_of ⟦<Sequence<'a> as LawfulType>⟧.type_laws };

    ghost type_gives = { ⟦<Sequence<'a> as FromDer<'a, Error>>⟧.der_gives };

    ghost lawful_type = { lawful_numbered ⟦<Sequence<'a> as LawfulType>⟧.type_laws refl };

    #[inline(always)]
    fn is_left_out(octets: &'a [u8]) -> bool {
        left_out_by_der::<Sequence<'a>>(octets)
    }

    #[inline(always)]
    fn read_type(alloc: Global, octets: &'a [u8]) -> ParseResult<'a, Sequence<'a>, Error> {
        type_by_der(alloc, octets)
    }
}

impl<'a> ReadsType<'a, DerParser> for Set<'a> {
    ghost numbered = { numbered_of ⟦<Set<'a> as LawfulType>⟧.type_laws };

    ghost type_gives = { ⟦<Set<'a> as FromDer<'a, Error>>⟧.der_gives };

    ghost lawful_type = { lawful_numbered ⟦<Set<'a> as LawfulType>⟧.type_laws refl };

    #[inline(always)]
    fn is_left_out(octets: &'a [u8]) -> bool {
        left_out_by_der::<Set<'a>>(octets)
    }

    #[inline(always)]
    fn read_type(alloc: Global, octets: &'a [u8]) -> ParseResult<'a, Set<'a>, Error> {
        type_by_der(alloc, octets)
    }
}

impl<'a> ReadsType<'a, DerParser> for String {
    ghost numbered = { numbered_of ⟦<String as LawfulType>⟧.type_laws };

    ghost type_gives = { ⟦<String as FromDer<'a, Error>>⟧.der_gives };

    ghost lawful_type = { lawful_numbered ⟦<String as LawfulType>⟧.type_laws refl };

    #[inline(always)]
    fn is_left_out(octets: &'a [u8]) -> bool {
        left_out_by_der::<String>(octets)
    }

    #[inline(always)]
    fn read_type(alloc: Global, octets: &'a [u8]) -> ParseResult<'a, String, Error> {
        type_by_der(alloc, octets)
    }
}

impl<'a> ReadsType<'a, DerParser> for u8 {
    ghost numbered = { numbered_of ⟦<u8 as LawfulType>⟧.type_laws };

    ghost type_gives = { ⟦<u8 as FromDer<'a, Error>>⟧.der_gives };

    ghost lawful_type = { lawful_numbered ⟦<u8 as LawfulType>⟧.type_laws refl };

    #[inline(always)]
    fn is_left_out(octets: &'a [u8]) -> bool {
        left_out_by_der::<u8>(octets)
    }

    #[inline(always)]
    fn read_type(alloc: Global, octets: &'a [u8]) -> ParseResult<'a, u8, Error> {
        type_by_der(alloc, octets)
    }
}

impl<'a> ReadsType<'a, DerParser> for u16 {
    ghost numbered = { numbered_of ⟦<u16 as LawfulType>⟧.type_laws };

    ghost type_gives = { ⟦<u16 as FromDer<'a, Error>>⟧.der_gives };

    ghost lawful_type = { lawful_numbered ⟦<u16 as LawfulType>⟧.type_laws refl };

    #[inline(always)]
    fn is_left_out(octets: &'a [u8]) -> bool {
        left_out_by_der::<u16>(octets)
    }

    #[inline(always)]
    fn read_type(alloc: Global, octets: &'a [u8]) -> ParseResult<'a, u16, Error> {
        type_by_der(alloc, octets)
    }
}

impl<'a> ReadsType<'a, DerParser> for u32 {
    ghost numbered = { numbered_of ⟦<u32 as LawfulType>⟧.type_laws };

    ghost type_gives = { ⟦<u32 as FromDer<'a, Error>>⟧.der_gives };

    ghost lawful_type = { lawful_numbered ⟦<u32 as LawfulType>⟧.type_laws refl };

    #[inline(always)]
    fn is_left_out(octets: &'a [u8]) -> bool {
        left_out_by_der::<u32>(octets)
    }

    #[inline(always)]
    fn read_type(alloc: Global, octets: &'a [u8]) -> ParseResult<'a, u32, Error> {
        type_by_der(alloc, octets)
    }
}

impl<'a> ReadsType<'a, DerParser> for u64 {
    ghost numbered = { numbered_of ⟦<u64 as LawfulType>⟧.type_laws };

    ghost type_gives = { ⟦<u64 as FromDer<'a, Error>>⟧.der_gives };

    ghost lawful_type = { lawful_numbered ⟦<u64 as LawfulType>⟧.type_laws refl };

    #[inline(always)]
    fn is_left_out(octets: &'a [u8]) -> bool {
        left_out_by_der::<u64>(octets)
    }

    #[inline(always)]
    fn read_type(alloc: Global, octets: &'a [u8]) -> ParseResult<'a, u64, Error> {
        type_by_der(alloc, octets)
    }
}

impl<'a> ReadsType<'a, DerParser> for u128 {
    ghost numbered = { numbered_of ⟦<u128 as LawfulType>⟧.type_laws };

    ghost type_gives = { ⟦<u128 as FromDer<'a, Error>>⟧.der_gives };

    ghost lawful_type = { lawful_numbered ⟦<u128 as LawfulType>⟧.type_laws refl };

    #[inline(always)]
    fn is_left_out(octets: &'a [u8]) -> bool {
        left_out_by_der::<u128>(octets)
    }

    #[inline(always)]
    fn read_type(alloc: Global, octets: &'a [u8]) -> ParseResult<'a, u128, Error> {
        type_by_der(alloc, octets)
    }
}

impl<'a> ReadsType<'a, DerParser> for i8 {
    ghost numbered = { numbered_of ⟦<i8 as LawfulType>⟧.type_laws };

    ghost type_gives = { ⟦<i8 as FromDer<'a, Error>>⟧.der_gives };

    ghost lawful_type = { lawful_numbered ⟦<i8 as LawfulType>⟧.type_laws refl };

    #[inline(always)]
    fn is_left_out(octets: &'a [u8]) -> bool {
        left_out_by_der::<i8>(octets)
    }

    #[inline(always)]
    fn read_type(alloc: Global, octets: &'a [u8]) -> ParseResult<'a, i8, Error> {
        type_by_der(alloc, octets)
    }
}

impl<'a> ReadsType<'a, DerParser> for i16 {
    ghost numbered = { numbered_of ⟦<i16 as LawfulType>⟧.type_laws };

    ghost type_gives = { ⟦<i16 as FromDer<'a, Error>>⟧.der_gives };

    ghost lawful_type = { lawful_numbered ⟦<i16 as LawfulType>⟧.type_laws refl };

    #[inline(always)]
    fn is_left_out(octets: &'a [u8]) -> bool {
        left_out_by_der::<i16>(octets)
    }

    #[inline(always)]
    fn read_type(alloc: Global, octets: &'a [u8]) -> ParseResult<'a, i16, Error> {
        type_by_der(alloc, octets)
    }
}

impl<'a> ReadsType<'a, DerParser> for i32 {
    ghost numbered = { numbered_of ⟦<i32 as LawfulType>⟧.type_laws };

    ghost type_gives = { ⟦<i32 as FromDer<'a, Error>>⟧.der_gives };

    ghost lawful_type = { lawful_numbered ⟦<i32 as LawfulType>⟧.type_laws refl };

    #[inline(always)]
    fn is_left_out(octets: &'a [u8]) -> bool {
        left_out_by_der::<i32>(octets)
    }

    #[inline(always)]
    fn read_type(alloc: Global, octets: &'a [u8]) -> ParseResult<'a, i32, Error> {
        type_by_der(alloc, octets)
    }
}

impl<'a> ReadsType<'a, DerParser> for i64 {
    ghost numbered = { numbered_of ⟦<i64 as LawfulType>⟧.type_laws };

    ghost type_gives = { ⟦<i64 as FromDer<'a, Error>>⟧.der_gives };

    ghost lawful_type = { lawful_numbered ⟦<i64 as LawfulType>⟧.type_laws refl };

    #[inline(always)]
    fn is_left_out(octets: &'a [u8]) -> bool {
        left_out_by_der::<i64>(octets)
    }

    #[inline(always)]
    fn read_type(alloc: Global, octets: &'a [u8]) -> ParseResult<'a, i64, Error> {
        type_by_der(alloc, octets)
    }
}

impl<'a> ReadsType<'a, DerParser> for i128 {
    ghost numbered = { numbered_of ⟦<i128 as LawfulType>⟧.type_laws };

    ghost type_gives = { ⟦<i128 as FromDer<'a, Error>>⟧.der_gives };

    ghost lawful_type = { lawful_numbered ⟦<i128 as LawfulType>⟧.type_laws refl };

    #[inline(always)]
    fn is_left_out(octets: &'a [u8]) -> bool {
        left_out_by_der::<i128>(octets)
    }

    #[inline(always)]
    fn read_type(alloc: Global, octets: &'a [u8]) -> ParseResult<'a, i128, Error> {
        type_by_der(alloc, octets)
    }
}

impl<'a> ReadsType<'a, DerParser> for Utf8String<'a> {
    ghost numbered = { numbered_of ⟦<Utf8String<'a> as LawfulType>⟧.type_laws };

    ghost type_gives = { ⟦<Utf8String<'a> as FromDer<'a, Error>>⟧.der_gives };

    ghost lawful_type = { lawful_numbered ⟦<Utf8String<'a> as LawfulType>⟧.type_laws refl };

    #[inline(always)]
    fn is_left_out(octets: &'a [u8]) -> bool {
        left_out_by_der::<Utf8String<'a>>(octets)
    }

    #[inline(always)]
    fn read_type(alloc: Global, octets: &'a [u8]) -> ParseResult<'a, Utf8String<'a>, Error> {
        type_by_der(alloc, octets)
    }
}

impl<'a> ReadsType<'a, DerParser> for NumericString<'a> {
    ghost numbered = { numbered_of ⟦<NumericString<'a> as LawfulType>⟧.type_laws };

    ghost type_gives = { ⟦<NumericString<'a> as FromDer<'a, Error>>⟧.der_gives };

    ghost lawful_type = { lawful_numbered ⟦<NumericString<'a> as LawfulType>⟧.type_laws refl };

    #[inline(always)]
    fn is_left_out(octets: &'a [u8]) -> bool {
        left_out_by_der::<NumericString<'a>>(octets)
    }

    #[inline(always)]
    fn read_type(alloc: Global, octets: &'a [u8]) -> ParseResult<'a, NumericString<'a>, Error> {
        type_by_der(alloc, octets)
    }
}

impl<'a> ReadsType<'a, DerParser> for PrintableString<'a> {
    ghost numbered = { numbered_of ⟦<PrintableString<'a> as LawfulType>⟧.type_laws };

    ghost type_gives = { ⟦<PrintableString<'a> as FromDer<'a, Error>>⟧.der_gives };

    ghost lawful_type = { lawful_numbered ⟦<PrintableString<'a> as LawfulType>⟧.type_laws refl };

    #[inline(always)]
    fn is_left_out(octets: &'a [u8]) -> bool {
        left_out_by_der::<PrintableString<'a>>(octets)
    }

    #[inline(always)]
    fn read_type(alloc: Global, octets: &'a [u8]) -> ParseResult<'a, PrintableString<'a>, Error> {
        type_by_der(alloc, octets)
    }
}

impl<'a> ReadsType<'a, DerParser> for Ia5String<'a> {
    ghost numbered = { numbered_of ⟦<Ia5String<'a> as LawfulType>⟧.type_laws };

    ghost type_gives = { ⟦<Ia5String<'a> as FromDer<'a, Error>>⟧.der_gives };

    ghost lawful_type = { lawful_numbered ⟦<Ia5String<'a> as LawfulType>⟧.type_laws refl };

    #[inline(always)]
    fn is_left_out(octets: &'a [u8]) -> bool {
        left_out_by_der::<Ia5String<'a>>(octets)
    }

    #[inline(always)]
    fn read_type(alloc: Global, octets: &'a [u8]) -> ParseResult<'a, Ia5String<'a>, Error> {
        type_by_der(alloc, octets)
    }
}

impl<'a> ReadsType<'a, DerParser> for GraphicString<'a> {
    ghost numbered = { numbered_of ⟦<GraphicString<'a> as LawfulType>⟧.type_laws };

    ghost type_gives = { ⟦<GraphicString<'a> as FromDer<'a, Error>>⟧.der_gives };

    ghost lawful_type = { lawful_numbered ⟦<GraphicString<'a> as LawfulType>⟧.type_laws refl };

    #[inline(always)]
    fn is_left_out(octets: &'a [u8]) -> bool {
        left_out_by_der::<GraphicString<'a>>(octets)
    }

    #[inline(always)]
    fn read_type(alloc: Global, octets: &'a [u8]) -> ParseResult<'a, GraphicString<'a>, Error> {
        type_by_der(alloc, octets)
    }
}

impl<'a> ReadsType<'a, DerParser> for GeneralString<'a> {
    ghost numbered = { numbered_of ⟦<GeneralString<'a> as LawfulType>⟧.type_laws };

    ghost type_gives = { ⟦<GeneralString<'a> as FromDer<'a, Error>>⟧.der_gives };

    ghost lawful_type = { lawful_numbered ⟦<GeneralString<'a> as LawfulType>⟧.type_laws refl };

    #[inline(always)]
    fn is_left_out(octets: &'a [u8]) -> bool {
        left_out_by_der::<GeneralString<'a>>(octets)
    }

    #[inline(always)]
    fn read_type(alloc: Global, octets: &'a [u8]) -> ParseResult<'a, GeneralString<'a>, Error> {
        type_by_der(alloc, octets)
    }
}

impl<'a> ReadsType<'a, DerParser> for ObjectDescriptor<'a> {
    ghost numbered = { numbered_of ⟦<ObjectDescriptor<'a> as LawfulType>⟧.type_laws };

    ghost type_gives = { ⟦<ObjectDescriptor<'a> as FromDer<'a, Error>>⟧.der_gives };

    ghost lawful_type = { lawful_numbered ⟦<ObjectDescriptor<'a> as LawfulType>⟧.type_laws refl };

    #[inline(always)]
    fn is_left_out(octets: &'a [u8]) -> bool {
        left_out_by_der::<ObjectDescriptor<'a>>(octets)
    }

    #[inline(always)]
    fn read_type(alloc: Global, octets: &'a [u8]) -> ParseResult<'a, ObjectDescriptor<'a>, Error> {
        type_by_der(alloc, octets)
    }
}

impl<'a> ReadsType<'a, DerParser> for TeletexString<'a> {
    ghost numbered = { numbered_of ⟦<TeletexString<'a> as LawfulType>⟧.type_laws };

    ghost type_gives = { ⟦<TeletexString<'a> as FromDer<'a, Error>>⟧.der_gives };

    ghost lawful_type = { lawful_numbered ⟦<TeletexString<'a> as LawfulType>⟧.type_laws refl };

    #[inline(always)]
    fn is_left_out(octets: &'a [u8]) -> bool {
        left_out_by_der::<TeletexString<'a>>(octets)
    }

    #[inline(always)]
    fn read_type(alloc: Global, octets: &'a [u8]) -> ParseResult<'a, TeletexString<'a>, Error> {
        type_by_der(alloc, octets)
    }
}

impl<'a> ReadsType<'a, DerParser> for VideotexString<'a> {
    ghost numbered = { numbered_of ⟦<VideotexString<'a> as LawfulType>⟧.type_laws };

    ghost type_gives = { ⟦<VideotexString<'a> as FromDer<'a, Error>>⟧.der_gives };

    ghost lawful_type = { lawful_numbered ⟦<VideotexString<'a> as LawfulType>⟧.type_laws refl };

    #[inline(always)]
    fn is_left_out(octets: &'a [u8]) -> bool {
        left_out_by_der::<VideotexString<'a>>(octets)
    }

    #[inline(always)]
    fn read_type(alloc: Global, octets: &'a [u8]) -> ParseResult<'a, VideotexString<'a>, Error> {
        type_by_der(alloc, octets)
    }
}

impl<'a> ReadsType<'a, DerParser> for VisibleString<'a> {
    ghost numbered = { numbered_of ⟦<VisibleString<'a> as LawfulType>⟧.type_laws };

    ghost type_gives = { ⟦<VisibleString<'a> as FromDer<'a, Error>>⟧.der_gives };

    ghost lawful_type = { lawful_numbered ⟦<VisibleString<'a> as LawfulType>⟧.type_laws refl };

    #[inline(always)]
    fn is_left_out(octets: &'a [u8]) -> bool {
        left_out_by_der::<VisibleString<'a>>(octets)
    }

    #[inline(always)]
    fn read_type(alloc: Global, octets: &'a [u8]) -> ParseResult<'a, VisibleString<'a>, Error> {
        type_by_der(alloc, octets)
    }
}

impl<'a> ReadsType<'a, DerParser> for UniversalString<'a> {
    ghost numbered = { numbered_of ⟦<UniversalString<'a> as LawfulType>⟧.type_laws };

    ghost type_gives = { ⟦<UniversalString<'a> as FromDer<'a, Error>>⟧.der_gives };

    ghost lawful_type = { lawful_numbered ⟦<UniversalString<'a> as LawfulType>⟧.type_laws refl };

    #[inline(always)]
    fn is_left_out(octets: &'a [u8]) -> bool {
        left_out_by_der::<UniversalString<'a>>(octets)
    }

    #[inline(always)]
    fn read_type(alloc: Global, octets: &'a [u8]) -> ParseResult<'a, UniversalString<'a>, Error> {
        type_by_der(alloc, octets)
    }
}

impl<'a> ReadsType<'a, DerParser> for BmpString<'a> {
    ghost numbered = { numbered_of ⟦<BmpString<'a> as LawfulType>⟧.type_laws };

    ghost type_gives = { ⟦<BmpString<'a> as FromDer<'a, Error>>⟧.der_gives };

    ghost lawful_type = { lawful_numbered ⟦<BmpString<'a> as LawfulType>⟧.type_laws refl };

    #[inline(always)]
    fn is_left_out(octets: &'a [u8]) -> bool {
        left_out_by_der::<BmpString<'a>>(octets)
    }

    #[inline(always)]
    fn read_type(alloc: Global, octets: &'a [u8]) -> ParseResult<'a, BmpString<'a>, Error> {
        type_by_der(alloc, octets)
    }
}

impl<'a> ReadsType<'a, DerParser> for UtcTime {
    ghost numbered = { numbered_of ⟦<UtcTime as LawfulType>⟧.type_laws };

    ghost type_gives = { ⟦<UtcTime as FromDer<'a, Error>>⟧.der_gives };

    ghost lawful_type = { lawful_numbered ⟦<UtcTime as LawfulType>⟧.type_laws refl };

    #[inline(always)]
    fn is_left_out(octets: &'a [u8]) -> bool {
        left_out_by_der::<UtcTime>(octets)
    }

    #[inline(always)]
    fn read_type(alloc: Global, octets: &'a [u8]) -> ParseResult<'a, UtcTime, Error> {
        type_by_der(alloc, octets)
    }
}

impl<'a> ReadsType<'a, DerParser> for GeneralizedTime {
    ghost numbered = { numbered_of ⟦<GeneralizedTime as LawfulType>⟧.type_laws };

    ghost type_gives = { ⟦<GeneralizedTime as FromDer<'a, Error>>⟧.der_gives };

    ghost lawful_type = { lawful_numbered ⟦<GeneralizedTime as LawfulType>⟧.type_laws refl };

    #[inline(always)]
    fn is_left_out(octets: &'a [u8]) -> bool {
        left_out_by_der::<GeneralizedTime>(octets)
    }

    #[inline(always)]
    fn read_type(alloc: Global, octets: &'a [u8]) -> ParseResult<'a, GeneralizedTime, Error> {
        type_by_der(alloc, octets)
    }
}

impl<'a> ReadsType<'a, DerParser> for Oid<'a> {
    ghost numbered = { numbered_of ⟦<Oid<'a> as LawfulType>⟧.type_laws };

    ghost type_gives = { ⟦<Oid<'a> as FromDer<'a, Error>>⟧.der_gives };

    ghost lawful_type = { lawful_numbered ⟦<Oid<'a> as LawfulType>⟧.type_laws refl };

    #[inline(always)]
    fn is_left_out(octets: &'a [u8]) -> bool {
        left_out_by_der::<Oid<'a>>(octets)
    }

    #[inline(always)]
    fn read_type(alloc: Global, octets: &'a [u8]) -> ParseResult<'a, Oid<'a>, Error> {
        type_by_der(alloc, octets)
    }
}
// written by tools/leaves.py: to here
