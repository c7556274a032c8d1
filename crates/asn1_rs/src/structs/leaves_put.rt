//! The leaf types of the library as fields that are written, each by an impl without bounds.
ghost use Rattle.asn1_rs.specs.Structs.Reading.{HasItsValue};

use crate::asn1_types::bit_string::BitString;
use crate::asn1_types::boolean::Boolean;
use crate::asn1_types::enumerated::Enumerated;
use crate::asn1_types::integer::octets::Integer;
use crate::asn1_types::kept::kinds::{Sequence, Set};
use crate::asn1_types::null::Null;
use crate::asn1_types::octet_string::OctetString;
use crate::asn1_types::oid::Oid;
use crate::asn1_types::strings::kinds::{
    BmpString, GeneralString, GraphicString, Ia5String, NumericString, ObjectDescriptor,
    PrintableString, TeletexString, UniversalString, Utf8String, VideotexString, VisibleString,
};
use crate::asn1_types::times::generalized_time::GeneralizedTime;
use crate::asn1_types::times::utc_time::UtcTime;
use crate::kinds::fields::Fields;
use crate::laws::LawfulItem;
use crate::structs::field::LawfulType;
use crate::structs::putting::WritesType;
use asn1_headers::error::SerializeResult;

// written by tools/leaves.py: from here
impl WritesType for bool {
    ghost type_writing = { ⟦<bool as LawfulType>⟧.type_laws.writing };

    ghost has_its_value = { HasItsValue ⟦<bool as LawfulType>⟧.type_laws.grammar };

    #[inline(always)]
    fn put_type(&self, fields: &mut Fields) -> SerializeResult<()> {
        fields.put(self)
    }

    fn assert_type_valid(&self) {
        self.has_value();
    }
}

impl WritesType for Boolean {
    ghost type_writing = { ⟦<Boolean as LawfulType>⟧.type_laws.writing };

    ghost has_its_value = { HasItsValue ⟦<Boolean as LawfulType>⟧.type_laws.grammar };

    #[inline(always)]
    fn put_type(&self, fields: &mut Fields) -> SerializeResult<()> {
        fields.put(self)
    }

    fn assert_type_valid(&self) {
        self.has_value();
    }
}

impl WritesType for () {
    ghost type_writing = { ⟦<() as LawfulType>⟧.type_laws.writing };

    ghost has_its_value = { HasItsValue ⟦<() as LawfulType>⟧.type_laws.grammar };

    #[inline(always)]
    fn put_type(&self, fields: &mut Fields) -> SerializeResult<()> {
        fields.put(self)
    }

    fn assert_type_valid(&self) {
        self.has_value();
    }
}

impl WritesType for Null {
    ghost type_writing = { ⟦<Null as LawfulType>⟧.type_laws.writing };

    ghost has_its_value = { HasItsValue ⟦<Null as LawfulType>⟧.type_laws.grammar };

    #[inline(always)]
    fn put_type(&self, fields: &mut Fields) -> SerializeResult<()> {
        fields.put(self)
    }

    fn assert_type_valid(&self) {
        self.has_value();
    }
}

impl WritesType for Enumerated {
    ghost type_writing = { ⟦<Enumerated as LawfulType>⟧.type_laws.writing };

    ghost has_its_value = { HasItsValue ⟦<Enumerated as LawfulType>⟧.type_laws.grammar };

    #[inline(always)]
    fn put_type(&self, fields: &mut Fields) -> SerializeResult<()> {
        fields.put(self)
    }

    fn assert_type_valid(&self) {
        self.has_value();
    }
}

impl<'a> WritesType for Integer<'a> {
    ghost type_writing = { ⟦<Integer<'a> as LawfulType>⟧.type_laws.writing };

    ghost has_its_value = { HasItsValue ⟦<Integer<'a> as LawfulType>⟧.type_laws.grammar };

    #[inline(always)]
    fn put_type(&self, fields: &mut Fields) -> SerializeResult<()> {
        fields.put(self)
    }

    fn assert_type_valid(&self) {
        self.has_value();
    }
}

impl<'a> WritesType for BitString<'a> {
    ghost type_writing = { ⟦<BitString<'a> as LawfulType>⟧.type_laws.writing };

    ghost has_its_value = { HasItsValue ⟦<BitString<'a> as LawfulType>⟧.type_laws.grammar };

    #[inline(always)]
    fn put_type(&self, fields: &mut Fields) -> SerializeResult<()> {
        fields.put(self)
    }

    fn assert_type_valid(&self) {
        self.has_value();
    }
}

impl<'a> WritesType for OctetString<'a> {
    ghost type_writing = { ⟦<OctetString<'a> as LawfulType>⟧.type_laws.writing };

    ghost has_its_value = { HasItsValue ⟦<OctetString<'a> as LawfulType>⟧.type_laws.grammar };

    #[inline(always)]
    fn put_type(&self, fields: &mut Fields) -> SerializeResult<()> {
        fields.put(self)
    }

    fn assert_type_valid(&self) {
        self.has_value();
    }
}

impl<'a> WritesType for &'a [u8] {
    ghost type_writing = { ⟦<&'a [u8] as LawfulType>⟧.type_laws.writing };

    ghost has_its_value = { HasItsValue ⟦<&'a [u8] as LawfulType>⟧.type_laws.grammar };

    #[inline(always)]
    fn put_type(&self, fields: &mut Fields) -> SerializeResult<()> {
        fields.put(self)
    }

    fn assert_type_valid(&self) {
        self.has_value();
    }
}

impl<'a> WritesType for &'a str {
    ghost type_writing = { ⟦<&'a str as LawfulType>⟧.type_laws.writing };

    ghost has_its_value = { HasItsValue ⟦<&'a str as LawfulType>⟧.type_laws.grammar };

    #[inline(always)]
    fn put_type(&self, fields: &mut Fields) -> SerializeResult<()> {
        fields.put(self)
    }

    fn assert_type_valid(&self) {
        self.has_value();
    }
}

impl<'a> WritesType for Sequence<'a> {
    ghost type_writing = { ⟦<Sequence<'a> as LawfulType>⟧.type_laws.writing };

    ghost has_its_value = { HasItsValue ⟦<Sequence<'a> as LawfulType>⟧.type_laws.grammar };

    #[inline(always)]
    fn put_type(&self, fields: &mut Fields) -> SerializeResult<()> {
        fields.put(self)
    }

    fn assert_type_valid(&self) {
        self.has_value();
    }
}

impl<'a> WritesType for Set<'a> {
    ghost type_writing = { ⟦<Set<'a> as LawfulType>⟧.type_laws.writing };

    ghost has_its_value = { HasItsValue ⟦<Set<'a> as LawfulType>⟧.type_laws.grammar };

    #[inline(always)]
    fn put_type(&self, fields: &mut Fields) -> SerializeResult<()> {
        fields.put(self)
    }

    fn assert_type_valid(&self) {
        self.has_value();
    }
}

impl WritesType for String {
    ghost type_writing = { ⟦<String as LawfulType>⟧.type_laws.writing };

    ghost has_its_value = { HasItsValue ⟦<String as LawfulType>⟧.type_laws.grammar };

    #[inline(always)]
    fn put_type(&self, fields: &mut Fields) -> SerializeResult<()> {
        fields.put(self)
    }

    fn assert_type_valid(&self) {
        self.has_value();
    }
}

impl WritesType for u8 {
    ghost type_writing = { ⟦<u8 as LawfulType>⟧.type_laws.writing };

    ghost has_its_value = { HasItsValue ⟦<u8 as LawfulType>⟧.type_laws.grammar };

    #[inline(always)]
    fn put_type(&self, fields: &mut Fields) -> SerializeResult<()> {
        fields.put(self)
    }

    fn assert_type_valid(&self) {
        self.has_value();
    }
}

impl WritesType for u16 {
    ghost type_writing = { ⟦<u16 as LawfulType>⟧.type_laws.writing };

    ghost has_its_value = { HasItsValue ⟦<u16 as LawfulType>⟧.type_laws.grammar };

    #[inline(always)]
    fn put_type(&self, fields: &mut Fields) -> SerializeResult<()> {
        fields.put(self)
    }

    fn assert_type_valid(&self) {
        self.has_value();
    }
}

impl WritesType for u32 {
    ghost type_writing = { ⟦<u32 as LawfulType>⟧.type_laws.writing };

    ghost has_its_value = { HasItsValue ⟦<u32 as LawfulType>⟧.type_laws.grammar };

    #[inline(always)]
    fn put_type(&self, fields: &mut Fields) -> SerializeResult<()> {
        fields.put(self)
    }

    fn assert_type_valid(&self) {
        self.has_value();
    }
}

impl WritesType for u64 {
    ghost type_writing = { ⟦<u64 as LawfulType>⟧.type_laws.writing };

    ghost has_its_value = { HasItsValue ⟦<u64 as LawfulType>⟧.type_laws.grammar };

    #[inline(always)]
    fn put_type(&self, fields: &mut Fields) -> SerializeResult<()> {
        fields.put(self)
    }

    fn assert_type_valid(&self) {
        self.has_value();
    }
}

impl WritesType for u128 {
    ghost type_writing = { ⟦<u128 as LawfulType>⟧.type_laws.writing };

    ghost has_its_value = { HasItsValue ⟦<u128 as LawfulType>⟧.type_laws.grammar };

    #[inline(always)]
    fn put_type(&self, fields: &mut Fields) -> SerializeResult<()> {
        fields.put(self)
    }

    fn assert_type_valid(&self) {
        self.has_value();
    }
}

impl WritesType for i8 {
    ghost type_writing = { ⟦<i8 as LawfulType>⟧.type_laws.writing };

    ghost has_its_value = { HasItsValue ⟦<i8 as LawfulType>⟧.type_laws.grammar };

    #[inline(always)]
    fn put_type(&self, fields: &mut Fields) -> SerializeResult<()> {
        fields.put(self)
    }

    fn assert_type_valid(&self) {
        self.has_value();
    }
}

impl WritesType for i16 {
    ghost type_writing = { ⟦<i16 as LawfulType>⟧.type_laws.writing };

    ghost has_its_value = { HasItsValue ⟦<i16 as LawfulType>⟧.type_laws.grammar };

    #[inline(always)]
    fn put_type(&self, fields: &mut Fields) -> SerializeResult<()> {
        fields.put(self)
    }

    fn assert_type_valid(&self) {
        self.has_value();
    }
}

impl WritesType for i32 {
    ghost type_writing = { ⟦<i32 as LawfulType>⟧.type_laws.writing };

    ghost has_its_value = { HasItsValue ⟦<i32 as LawfulType>⟧.type_laws.grammar };

    #[inline(always)]
    fn put_type(&self, fields: &mut Fields) -> SerializeResult<()> {
        fields.put(self)
    }

    fn assert_type_valid(&self) {
        self.has_value();
    }
}

impl WritesType for i64 {
    ghost type_writing = { ⟦<i64 as LawfulType>⟧.type_laws.writing };

    ghost has_its_value = { HasItsValue ⟦<i64 as LawfulType>⟧.type_laws.grammar };

    #[inline(always)]
    fn put_type(&self, fields: &mut Fields) -> SerializeResult<()> {
        fields.put(self)
    }

    fn assert_type_valid(&self) {
        self.has_value();
    }
}

impl WritesType for i128 {
    ghost type_writing = { ⟦<i128 as LawfulType>⟧.type_laws.writing };

    ghost has_its_value = { HasItsValue ⟦<i128 as LawfulType>⟧.type_laws.grammar };

    #[inline(always)]
    fn put_type(&self, fields: &mut Fields) -> SerializeResult<()> {
        fields.put(self)
    }

    fn assert_type_valid(&self) {
        self.has_value();
    }
}

impl<'a> WritesType for Utf8String<'a> {
    ghost type_writing = { ⟦<Utf8String<'a> as LawfulType>⟧.type_laws.writing };

    ghost has_its_value = { HasItsValue ⟦<Utf8String<'a> as LawfulType>⟧.type_laws.grammar };

    #[inline(always)]
    fn put_type(&self, fields: &mut Fields) -> SerializeResult<()> {
        fields.put(self)
    }

    fn assert_type_valid(&self) {
        self.has_value();
    }
}

impl<'a> WritesType for NumericString<'a> {
    ghost type_writing = { ⟦<NumericString<'a> as LawfulType>⟧.type_laws.writing };

    ghost has_its_value = { HasItsValue ⟦<NumericString<'a> as LawfulType>⟧.type_laws.grammar };

    #[inline(always)]
    fn put_type(&self, fields: &mut Fields) -> SerializeResult<()> {
        fields.put(self)
    }

    fn assert_type_valid(&self) {
        self.has_value();
    }
}

impl<'a> WritesType for PrintableString<'a> {
    ghost type_writing = { ⟦<PrintableString<'a> as LawfulType>⟧.type_laws.writing };

    ghost has_its_value = { HasItsValue ⟦<PrintableString<'a> as LawfulType>⟧.type_laws.grammar };

    #[inline(always)]
    fn put_type(&self, fields: &mut Fields) -> SerializeResult<()> {
        fields.put(self)
    }

    fn assert_type_valid(&self) {
        self.has_value();
    }
}

impl<'a> WritesType for Ia5String<'a> {
    ghost type_writing = { ⟦<Ia5String<'a> as LawfulType>⟧.type_laws.writing };

    ghost has_its_value = { HasItsValue ⟦<Ia5String<'a> as LawfulType>⟧.type_laws.grammar };

    #[inline(always)]
    fn put_type(&self, fields: &mut Fields) -> SerializeResult<()> {
        fields.put(self)
    }

    fn assert_type_valid(&self) {
        self.has_value();
    }
}

impl<'a> WritesType for GraphicString<'a> {
    ghost type_writing = { ⟦<GraphicString<'a> as LawfulType>⟧.type_laws.writing };

    ghost has_its_value = { HasItsValue ⟦<GraphicString<'a> as LawfulType>⟧.type_laws.grammar };

    #[inline(always)]
    fn put_type(&self, fields: &mut Fields) -> SerializeResult<()> {
        fields.put(self)
    }

    fn assert_type_valid(&self) {
        self.has_value();
    }
}

impl<'a> WritesType for GeneralString<'a> {
    ghost type_writing = { ⟦<GeneralString<'a> as LawfulType>⟧.type_laws.writing };

    ghost has_its_value = { HasItsValue ⟦<GeneralString<'a> as LawfulType>⟧.type_laws.grammar };

    #[inline(always)]
    fn put_type(&self, fields: &mut Fields) -> SerializeResult<()> {
        fields.put(self)
    }

    fn assert_type_valid(&self) {
        self.has_value();
    }
}

impl<'a> WritesType for ObjectDescriptor<'a> {
    ghost type_writing = { ⟦<ObjectDescriptor<'a> as LawfulType>⟧.type_laws.writing };

    ghost has_its_value = { HasItsValue ⟦<ObjectDescriptor<'a> as LawfulType>⟧.type_laws.grammar };

    #[inline(always)]
    fn put_type(&self, fields: &mut Fields) -> SerializeResult<()> {
        fields.put(self)
    }

    fn assert_type_valid(&self) {
        self.has_value();
    }
}

impl<'a> WritesType for TeletexString<'a> {
    ghost type_writing = { ⟦<TeletexString<'a> as LawfulType>⟧.type_laws.writing };

    ghost has_its_value = { HasItsValue ⟦<TeletexString<'a> as LawfulType>⟧.type_laws.grammar };

    #[inline(always)]
    fn put_type(&self, fields: &mut Fields) -> SerializeResult<()> {
        fields.put(self)
    }

    fn assert_type_valid(&self) {
        self.has_value();
    }
}

impl<'a> WritesType for VideotexString<'a> {
    ghost type_writing = { ⟦<VideotexString<'a> as LawfulType>⟧.type_laws.writing };

    ghost has_its_value = { HasItsValue ⟦<VideotexString<'a> as LawfulType>⟧.type_laws.grammar };

    #[inline(always)]
    fn put_type(&self, fields: &mut Fields) -> SerializeResult<()> {
        fields.put(self)
    }

    fn assert_type_valid(&self) {
        self.has_value();
    }
}

impl<'a> WritesType for VisibleString<'a> {
    ghost type_writing = { ⟦<VisibleString<'a> as LawfulType>⟧.type_laws.writing };

    ghost has_its_value = { HasItsValue ⟦<VisibleString<'a> as LawfulType>⟧.type_laws.grammar };

    #[inline(always)]
    fn put_type(&self, fields: &mut Fields) -> SerializeResult<()> {
        fields.put(self)
    }

    fn assert_type_valid(&self) {
        self.has_value();
    }
}

impl<'a> WritesType for UniversalString<'a> {
    ghost type_writing = { ⟦<UniversalString<'a> as LawfulType>⟧.type_laws.writing };

    ghost has_its_value = { HasItsValue ⟦<UniversalString<'a> as LawfulType>⟧.type_laws.grammar };

    #[inline(always)]
    fn put_type(&self, fields: &mut Fields) -> SerializeResult<()> {
        fields.put(self)
    }

    fn assert_type_valid(&self) {
        self.has_value();
    }
}

impl<'a> WritesType for BmpString<'a> {
    ghost type_writing = { ⟦<BmpString<'a> as LawfulType>⟧.type_laws.writing };

    ghost has_its_value = { HasItsValue ⟦<BmpString<'a> as LawfulType>⟧.type_laws.grammar };

    #[inline(always)]
    fn put_type(&self, fields: &mut Fields) -> SerializeResult<()> {
        fields.put(self)
    }

    fn assert_type_valid(&self) {
        self.has_value();
    }
}

impl WritesType for UtcTime {
    ghost type_writing = { ⟦<UtcTime as LawfulType>⟧.type_laws.writing };

    ghost has_its_value = { HasItsValue ⟦<UtcTime as LawfulType>⟧.type_laws.grammar };

    #[inline(always)]
    fn put_type(&self, fields: &mut Fields) -> SerializeResult<()> {
        fields.put(self)
    }

    fn assert_type_valid(&self) {
        self.has_value();
    }
}

impl WritesType for GeneralizedTime {
    ghost type_writing = { ⟦<GeneralizedTime as LawfulType>⟧.type_laws.writing };

    ghost has_its_value = { HasItsValue ⟦<GeneralizedTime as LawfulType>⟧.type_laws.grammar };

    #[inline(always)]
    fn put_type(&self, fields: &mut Fields) -> SerializeResult<()> {
        fields.put(self)
    }

    fn assert_type_valid(&self) {
        self.has_value();
    }
}

impl<'a> WritesType for Oid<'a> {
    ghost type_writing = { ⟦<Oid<'a> as LawfulType>⟧.type_laws.writing };

    ghost has_its_value = { HasItsValue ⟦<Oid<'a> as LawfulType>⟧.type_laws.grammar };

    #[inline(always)]
    fn put_type(&self, fields: &mut Fields) -> SerializeResult<()> {
        fields.put(self)
    }

    fn assert_type_valid(&self) {
        self.has_value();
    }
}
// written by tools/leaves.py: to here
