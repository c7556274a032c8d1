//! Octets and headers that are put in front of others.
ghost use Rattle.std.specs.Prelude.{ℕ, Bool, List, [], ◌∷◌, ◌++◌, ◌≡◌, ◌≤◌, ◌<◌, ◌-◌, length, true, IfSome, IfNone, IfOk};
ghost use Rattle.std.specs.Prelude.{IfErr, IsTrue, OnOk, MatchResult};
ghost use Rattle.x690.specs.Octets.{IsOctets};
ghost use Rattle.asn1_schema.specs.declared.fault.Fault.TheVariants as faults;
ghost use Rattle.asn1_schema.specs.declared.schema.TypeTag.{TypeTag};
ghost use Rattle.asn1_schema.specs.Sound.{is_single, are_classes};
ghost use Rattle.asn1_schema.specs.Writing.{Grew, Omits, IsOneTag, constructed_of, MakesElement, id_with};

use crate::fault::Fault;
use crate::schema::{Kind, Tags, TypeTag};
use asn1_headers::buffer::{DerBuffer, keep_last, prepend_element};

/// Puts octets in front.
pub(crate) fn put(octets: &[u8], buf: &mut DerBuffer) -> Result<(), Fault>
    ensures ok { OnOk result (buf.new ≡ octets.now ++ buf.old) }
    ensures err { IfErr result (λ e. (e ≡ faults.Memory) × (buf.new ≡ buf.old)) }
    ensures octets { IsOctets octets.now }
{
    match buf.prepend(octets) {
        Ok(()) => Ok(()),
        Err(_) => Err(Fault::Memory),
    }
}

/// Puts octets in front, and answers the place.
pub(crate) fn put_at(octets: &[u8], place: usize, buf: &mut DerBuffer) -> Result<usize, Fault>
    ensures put { MatchResult result (λ rest. (rest ≡ place) × (buf.new ≡ octets.now ++ buf.old))
        (λ e. (e ≡ faults.Memory) × (buf.new ≡ buf.old)) }
    ensures octets { IsOctets octets.now }
{
    match put(octets, buf) {
        Ok(()) => Ok(place),
        Err(e) => Err(e),
    }
}

/// The octets in front of so many.
pub(crate) fn in_front(buf: &DerBuffer, held: usize) -> &[u8]
    ensures { (word behind : List ℕ) → buf.now ≡ word ++ behind → held ≡ length behind →
        result.now ≡ word }
{
    let octets = buf.as_bytes();
    let (front, _behind) = octets.split_at(octets.len().saturating_sub(held));
    front
}

/// The one tag.
fn one_tag(tags: &Tags) -> Option<TypeTag>
    ensures some { IfSome result (λ tag. are_classes tags.now ≡ true → IsOneTag tags.now tag) }
    ensures none { IfNone result (is_single tags.now ≡ true → ⊥) }
{
    match tags {
        Tags::AllBut(_) => None,
        Tags::Among(list) => match list.as_slice() {
            [tag] => Some(*tag),
            _ => None,
        },
    }
}

/// Whether strict elements of a kind are constructed.
pub(crate) fn is_constructed(kind: &Kind) -> bool
    ensures { result ≡ constructed_of kind.now }
{
    match kind {
        Kind::Sequence(_, _) => true,
        Kind::Set(_, _) => true,
        Kind::SequenceOf(_) => true,
        Kind::SetOf(_) => true,
        Kind::Explicit(_) => true,
        _ => false,
    }
}

/// Puts the header of an element before its contents octets, which stand in front of so many octets.
pub(crate) fn put_header(
    class: u8,
    constructed: bool,
    number: u32,
    held: usize,
    buf: &mut DerBuffer,
) -> Result<(), Fault>
    requires held { held ≤ length buf.old }
    requires class { class < 4 }
    ensures ok { OnOk result
        (MakesElement (id_with class constructed number) held buf.old buf.new) }
    ensures err { IfErr result (λ e. e ≡ faults.Memory) }
    ensures grew { (content behind : List ℕ) → buf.old ≡ content ++ behind →
        held ≡ length behind → Grew behind buf.new }
{
    let count = buf.len() - held;
    match prepend_element(class, constructed, number, Ok(count), buf) {
        Ok(_) => Ok(()),
        Err(_) => Err(Fault::Memory),
    }
}

/// Puts the header of an element with the one tag before its contents octets, and answers the place.
pub(crate) fn finish(
    tags: &Tags,
    constructed: bool,
    held: usize,
    place: usize,
    buf: &mut DerBuffer,
) -> Result<usize, Fault>
    requires held { held ≤ length buf.old }
    requires single { is_single tags.now ≡ true }
    requires classes { are_classes tags.now ≡ true }
    ensures ok { IfOk result (λ rest. (rest ≡ place) × ((tag : TypeTag) × IsOneTag tags.now tag ×
        MakesElement (id_with tag.class constructed tag.number) held buf.old buf.new)) }
    ensures err { IfErr result (λ e. e ≡ faults.Memory) }
    ensures grew { (content behind : List ℕ) → buf.old ≡ content ++ behind →
        held ≡ length behind → Grew behind buf.new }
{
    let Some(tag) = one_tag(tags) else {
        return Err(Fault::Refused);
    };
    put_header(tag.class, constructed, tag.number, held, buf)?;
    Ok(place)
}

/// Whether two strings of octets are the same.
fn is_same(one: &[u8], other: &[u8]) -> bool
    ensures yes { IsTrue result → one.now ≡ other.now }
    ensures no { one.now ≡ other.now → IsTrue result }
{
    one == other
}

/// Takes octets back from the front where they are those of a default: more than so many are there.
pub(crate) fn omit_default(default: &[u8], held: usize, buf: &mut DerBuffer)
    ensures { (word behind : List ℕ) → buf.old ≡ word ++ behind → held ≡ length behind →
        Omits default.now word behind buf.new }
{
    if is_same(in_front(buf, held), default) {
        keep_last(buf, held);
    }
}
