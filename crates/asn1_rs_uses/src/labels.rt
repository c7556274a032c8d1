//! Borrowed octet strings under tags, counted and written. Some are optional, and some stand in a list. One has its
//! header in hand, and one list is held by a type of a caller's.
ghost use Rattle.std.specs.Prelude.{◌≡◌, ◌+◌, false, true, length, IfErr, MatchResult};
ghost use Rattle.asn1_rs.specs.Prelude.{IsMemoryOrLength, MayRefuse, Prepended, whole_octets, Wrote};
ghost use Rattle.asn1_headers.specs.Header.{is_constructed_of};
ghost use Rattle.asn1_rs_uses.specs.Labels.{label_octets, labels_octets, headed_octets};
ghost use Rattle.asn1_rs_uses.specs.Labels.{AreEachCall, AreRefused};
ghost use Rattle.asn1_rs.specs.ToDer.{MayRefuseCount};

use asn1_rs::author::{HasKind, HolderKind, Holds};
use asn1_rs::laws::{AlwaysDer, LawfulItem, LawfulWrite, counts_are_of_the_strict_encoding};
use asn1_rs::{
    DerBuffer, DerWrite, Error, Explicit, Implicit, OctetString, SerializeResult, TaggedExplicit,
    TaggedParser, TaggedValue, ToDer, strict_vec, write_strict,
};
use std::alloc::Global;

/// An octet string under the explicit tag 1.
pub type Label<'a> = TaggedExplicit<OctetString<'a>, Error, 1>;

/// Octets under the tag of general strings.
pub type GeneralString<'a> = TaggedValue<OctetString<'a>, Error, Implicit, 0, 27>;

/// A sequence of general strings under the explicit tag 0.
pub type Labels<'a> = TaggedExplicit<Vec<GeneralString<'a>>, Error, 0>;

/// An octet string with the header of the explicit tag that it stands under.
pub type Headed<'a> = TaggedParser<'a, Explicit, OctetString<'a>, Error>;

/// How many octets a label has, or none where it is left out. Refused only where their number passes `usize`.
pub fn count_label(label: &Option<Label<'_>>) -> Result<usize, Error>
    ensures { MatchResult result (λ n. n ≡ length (label_octets label.now))
        (MayRefuseCount false (length (label_octets label.now))) }
{
    label.to_der_len()
}

/// Appends a label, or nothing where it is left out. Refused only as any writing of so many octets.
pub fn write_label<W: DerWrite>(
    label: &Option<Label<'_>>,
    alloc: Global,
    w: &mut W,
) -> SerializeResult<usize>
    ensures wrote { Wrote (label_octets label.now) (W.state w.old) (W.state w.new) result }
    ensures refused { IfErr result (MayRefuse false (length (label_octets label.now))) }
{
    label.write_der(alloc, w)
}

/// Puts a label, or nothing where it is left out, before the octets of a buffer. Refused only when out of memory, or
/// where the buffer would pass `usize`.
pub fn prepend_label(
    label: &Option<Label<'_>>,
    alloc: Global,
    buf: &mut DerBuffer,
) -> SerializeResult<usize>
    ensures prepended { Prepended (label_octets label.now) buf.old buf.new result }
    ensures refused { IfErr result
        (MayRefuse true (length (label_octets label.now) + length buf.old)) }
{
    label.prepend_der(alloc, buf)
}

/// A label in a vector, or no octets where it is left out. Refused only when out of memory, or where their number
/// passes `usize`.
pub fn label_vec(alloc: Global, label: &Option<Label<'_>>) -> SerializeResult<Vec<u8>>
    ensures { MatchResult result (λ octets. octets.items ≡ label_octets label.now)
        (IsMemoryOrLength (label_octets label.now)) }
{
    label.to_der_vec(alloc)
}

/// What each call answered that counts or writes a value.
#[derive(Debug, Drop)]
pub struct EachCall {
    /// `to_der_len`.
    pub counted: Result<usize, Error>,
    /// `write_der`, into one writer.
    pub written: SerializeResult<usize>,
    /// `write_strict`, into another.
    pub strictly: SerializeResult<usize>,
    /// `to_der_vec`.
    pub vector: SerializeResult<Vec<u8>>,
    /// `strict_vec`.
    pub strict: SerializeResult<Vec<u8>>,
}

/// Counts a value and writes it, by each call. Of a value in DER form each call is refused only for the number of
/// octets, by the writer, or when out of memory.
pub fn by_each_call<T: LawfulWrite, W: DerWrite>(
    x: &T,
    alloc: Global,
    w: &mut W,
    v: &mut W,
) -> EachCall
    ensures calls { AreEachCall (whole_octets T.writing x.now) (W.state w.old) (W.state w.new)
        (W.state v.old) (W.state v.new) result }
    ensures refused { T.grammar.IsDer (T.grammar.value x.now) →
        AreRefused (length (whole_octets T.writing x.now)) result }
{
    counts_are_of_the_strict_encoding::<T>();
    EachCall {
        counted: x.to_der_len(),
        written: x.write_der(alloc, w),
        strictly: write_strict(x, alloc, v),
        vector: x.to_der_vec(alloc),
        strict: strict_vec(alloc, x),
    }
}

/// The labels, by each call.
pub fn labels_by_each_call<W: DerWrite>(
    labels: &Labels<'_>,
    alloc: Global,
    w: &mut W,
    v: &mut W,
) -> EachCall
    ensures calls { AreEachCall (labels_octets labels.now) (W.state w.old) (W.state w.new)
        (W.state v.old) (W.state v.new) result }
    ensures refused { AreRefused (length (labels_octets labels.now)) result }
{
    labels.is_der();
    by_each_call(labels, alloc, w, v)
}

/// An octet string under the tag that its header tells, by each call. X.690 8.14.2 asks for the constructed bit at an
/// explicit tag. Where the header has this bit, the value is refused as a value in DER form is.
// Of another header no clause tells the refusals, since `by_each_call` tells them of values in DER form alone.
pub fn headed_by_each_call<W: DerWrite>(
    headed: &Headed<'_>,
    alloc: Global,
    w: &mut W,
    v: &mut W,
) -> EachCall
    ensures calls { AreEachCall (headed_octets headed.now) (W.state w.old) (W.state w.new)
        (W.state v.old) (W.state v.new) result }
    ensures refused { is_constructed_of headed.now.header ≡ true →
        AreRefused (length (headed_octets headed.now)) result }
{
    headed.has_value();
    by_each_call(headed, alloc, w, v)
}

/// A list of names. It holds its labels and nothing else. So it is counted and written as they are.
#[derive(Debug, PartialEq, Eq, Drop)]
pub struct Directory<'a>(pub Labels<'a>);

impl HasKind for Directory<'_> {
    type Kind = HolderKind;
}

impl<'a> Holds for Directory<'a> {
    type Held = Labels<'a>;

    ghost held = { λ x. x.0 };

    fn held(&self) -> &Labels<'a> {
        &self.0
    }
}

/// The directory, by each call.
pub fn directory_by_each_call<W: DerWrite>(
    directory: &Directory<'_>,
    alloc: Global,
    w: &mut W,
    v: &mut W,
) -> EachCall
    ensures calls { AreEachCall (labels_octets directory.now.0) (W.state w.old) (W.state w.new)
        (W.state v.old) (W.state v.new) result }
    ensures refused { AreRefused (length (labels_octets directory.now.0)) result }
{
    directory.is_der();
    by_each_call(directory, alloc, w, v)
}
