//! Types of a caller's whose values may not be written, alone and in lists and sets.
ghost use Rattle.std.specs.Prelude.{◌≡◌, ◌≢◌, ◌≤◌, ◌⊎◌, [], None, true, false, length, Err, IfErr, OnErr, IsErr};
ghost use Rattle.std.specs.Prelude.{IsErrAnd, MatchResult};
ghost use Rattle.asn1_headers.specs.declared.class.Class.TheVariants as classes;
ghost use Rattle.asn1_headers.specs.declared.length.Length.TheVariants as forms;
ghost use Rattle.asn1_headers.specs.declared.error.Error.TheVariants as errors;
ghost use Rattle.asn1_headers.specs.declared.error.SerializeError.TheVariants as serialize_errors;
ghost use Rattle.asn1_headers.specs.Header.{HasParts};
ghost use Rattle.asn1_rs.specs.Prelude.{items_of, MayRefuse};
ghost use Rattle.asn1_headers.specs.Writer.{GrewByABeginning};
ghost use Rattle.asn1_rs.specs.ToDer.{RefusedAtOnce};
ghost use Rattle.asn1_rs_uses.specs.Refusals.{AsAnyWriting, TellsOfNoClass, SomeInNoClass, octets_in_classes};
ghost use Rattle.asn1_rs_uses.specs.Refusals.{IsEmptyPart, TellsOfEmptyPart, WrittenEmptyPart, IsMemoryOrAnyLength};
ghost use Rattle.asn1_rs_uses.specs.Refusals.{SomeEmpty, in_class_writing, part_writing};

use asn1_rs::author::put_all;
use asn1_rs::{
    Any, Class, DerWrite, DynTagged, Error, Header, Length, SerializeError, SerializeResult, SetOf,
    Tag, ToDer,
};
use std::alloc::Global;
use std::collections::BTreeSet;

/// An element of one octet, with tag number 0, under a class that is told by its number.
///
/// A number above 3 is that of no class. Such a value is counted, and refused in writing.
#[derive(Debug, Clone, Copy, PartialEq, Eq, PartialOrd, Ord)]
pub struct InClass {
    pub class: u8,
    pub octet: u8,
}

impl DynTagged for InClass {
    ghost dyn_tag = { λ _. record { 0 = 0 } };

    fn tag(&self) -> Tag {
        Tag(0)
    }
}

impl ToDer for InClass {
    ghost writing = { in_class_writing };

    fn to_der_len(&self) -> Result<usize, Error> {
        Ok(3)
    }

    fn der_content_len(&self) -> Result<usize, Error> {
        Ok(1)
    }

    fn der_constructed(&self) -> bool {
        false
    }

    fn write_der_header<W: DerWrite>(&self, alloc: Global, w: &mut W) -> SerializeResult<usize> {
        match Class::try_from(self.class) {
            Ok(class) => {
                Header::new(class, false, Tag(0), Length::Definite(1)).write_der_header(alloc, w)
            }
            Err(_) => Err(SerializeError::InvalidClass { class: self.class }),
        }
    }

    fn write_der_content<W: DerWrite>(&self, _alloc: Global, w: &mut W) -> SerializeResult<usize> {
        if self.class > 3 {
            return Err(SerializeError::InvalidClass { class: self.class });
        }
        put_all(w, &[self.octet])
    }
}

/// Appends the element. A value of no class is refused, with nothing appended.
pub fn write_in_class<W: DerWrite>(x: &InClass, alloc: Global, w: &mut W) -> SerializeResult<usize>
    ensures { 4 ≤ x.now.class → RefusedAtOnce (serialize_errors.InvalidClass x.now.class)
        (W.state w.old) (W.state w.new) result }
{
    x.write_der(alloc, w)
}

/// Appends the header alone.
pub fn write_header_in_class<W: DerWrite>(
    x: &InClass,
    alloc: Global,
    w: &mut W,
) -> SerializeResult<usize>
    ensures { 4 ≤ x.now.class → RefusedAtOnce (serialize_errors.InvalidClass x.now.class)
        (W.state w.old) (W.state w.new) result }
{
    x.write_der_header(alloc, w)
}

/// Appends the raw form.
pub fn write_raw_in_class<W: DerWrite>(
    x: &InClass,
    alloc: Global,
    w: &mut W,
) -> SerializeResult<usize>
    ensures { 4 ≤ x.now.class → RefusedAtOnce (serialize_errors.InvalidClass x.now.class)
        (W.state w.old) (W.state w.new) result }
{
    x.write_der_raw(alloc, w)
}

/// The encoding in a vector.
pub fn vector_in_class(alloc: Global, x: &InClass) -> SerializeResult<Vec<u8>>
    ensures { 4 ≤ x.now.class → result ≡ Err (serialize_errors.InvalidClass x.now.class) }
{
    x.to_der_vec(alloc)
}

/// Appends a list of such values. Where a value is of no class, nothing is appended. Without memory a beginning may be
/// appended.
pub fn write_list_in_classes<W: DerWrite>(
    xs: &Vec<InClass>,
    alloc: Global,
    w: &mut W,
) -> SerializeResult<usize>
    ensures some { SomeInNoClass xs.now.items → IsErr result }
    ensures why { IfErr result (λ e. MayRefuse false (length (octets_in_classes xs.now.items)) e
        ⊎ TellsOfNoClass xs.now.items e) }
    ensures begun { OnErr result
        (GrewByABeginning (W.state w.old).told (W.state w.new).told
        (octets_in_classes xs.now.items)) }
{
    xs.write_der(alloc, w)
}

/// Appends a set of such values. Out of memory may be the refusal before one of no class is met.
pub fn write_set_in_classes<W: DerWrite>(
    xs: &SetOf<InClass>,
    alloc: Global,
    w: &mut W,
) -> SerializeResult<usize>
    ensures some { SomeInNoClass (items_of xs.now) → IsErr result }
    ensures why { IfErr result (λ e. AsAnyWriting e ⊎ TellsOfNoClass (items_of xs.now) e) }
{
    xs.write_der(alloc, w)
}

/// Appends such values that are held in their order.
pub fn write_ordered_set_in_classes<W: DerWrite>(
    xs: &BTreeSet<InClass>,
    alloc: Global,
    w: &mut W,
) -> SerializeResult<usize>
    ensures some { SomeInNoClass xs.now.keys → IsErr result }
    ensures why { IfErr result (λ e. AsAnyWriting e ⊎ TellsOfNoClass xs.now.keys e) }
{
    xs.write_der(alloc, w)
}

/// A part of a name: a string that is not empty. An empty one is refused in counting and in writing.
#[derive(Debug, Clone, Copy, PartialEq, Eq)]
pub struct NamePart<'a>(pub &'a [u8]);

impl<'a> NamePart<'a> {
    /// The element that it is written as.
    fn element(&self) -> Result<Any<'a>, Error>
        ensures { MatchResult result
            (λ any. (self.now.0.now ≢ []) × (any.content.now ≡ self.now.0.now)
            × HasParts any.header classes.Universal false (record { 0 = 12 })
            (forms.Definite (length self.now.0.now)) None)
            (IsEmptyPart self.now.0.now) }
    {
        if self.0.is_empty() {
            return Err(Tag::Utf8String.invalid_value("empty part"));
        }
        Ok(Any::from_tag_and_data(Tag::Utf8String, self.0))
    }
}

impl DynTagged for NamePart<'_> {
    ghost dyn_tag = { λ _. record { 0 = 12 } };

    fn tag(&self) -> Tag {
        Tag::Utf8String
    }
}

impl ToDer for NamePart<'_> {
    ghost writing = { part_writing };

    fn to_der_len(&self) -> Result<usize, Error> {
        self.element()?.to_der_len()
    }

    fn der_content_len(&self) -> Result<usize, Error> {
        self.element()?.der_content_len()
    }

    fn der_constructed(&self) -> bool {
        false
    }

    fn write_der_header<W: DerWrite>(&self, alloc: Global, w: &mut W) -> SerializeResult<usize> {
        self.element()?.write_der_header(alloc, w)
    }

    fn write_der_content<W: DerWrite>(&self, alloc: Global, w: &mut W) -> SerializeResult<usize> {
        self.element()?.write_der_content(alloc, w)
    }
}

/// How many octets a name has. One with an empty part is refused with the text of that.
pub fn count_name(parts: &Vec<NamePart<'_>>) -> Result<usize, Error>
    ensures { SomeEmpty parts.now.items →
        IsErrAnd result (λ e. TellsOfEmptyPart e ⊎ (e ≡ errors.InvalidLength)) }
{
    parts.to_der_len()
}

/// Appends a name. A name with an empty part is refused with the text of that part, and nothing is appended. Another
/// refusal may come first: out of memory, or a length that passes `usize`.
pub fn write_name<W: DerWrite>(
    parts: &Vec<NamePart<'_>>,
    alloc: Global,
    w: &mut W,
) -> SerializeResult<usize>
    ensures why { SomeEmpty parts.now.items →
        IsErrAnd result (λ e. WrittenEmptyPart e ⊎ IsMemoryOrAnyLength e) }
    ensures nothing { SomeEmpty parts.now.items →
        W.state w.new ≡ W.state w.old }
{
    parts.write_der(alloc, w)
}
