//! Values without parts.
ghost use Rattle.std.specs.Prelude.{ℤ, ◌≡◌, ◌++◌, ◌∷◌, ◌%◌, [], List, length, string_bytes, encode_utf8_all, true, OnOk, IfOk, IsUtf8};
ghost use Rattle.hex.specs.Hex.{encode_lower};
ghost use Rattle.json.specs.Token as json;
ghost use Rattle.x690.specs.Digits.{twos_complement_value};
ghost use Rattle.x690.specs.Strict.{header_octets};
ghost use Rattle.asn1_words.specs.Numbers.{are_shown, arcs as spec_arcs, dotted_arcs as spec_arcs_text};
ghost use Rattle.asn1_words.specs.Words.{integer_text, number_text};
ghost use Rattle.asn1_schema.specs.Joined.{all_octets, octets_of};
ghost use Rattle.asn1_schema.specs.Same.{joined_leaf, all_bits_of};
ghost use Rattle.asn1_schema.specs.Tape.{Kept, Mark, mark, marks, tape_of, value_of};
ghost use Rattle.asn1_schema.specs.Values.{LeafValue, leaf};
ghost use Rattle.asn1_json.specs.Types.{labels_at};
ghost use Rattle.asn1_json.specs.Texts.{text_of};
ghost use Rattle.asn1_json.specs.Walk.{begins_pieces};
ghost use Rattle.asn1_json.specs.Leaves.{bits_tokens, arcs_or_hexadecimal, leaf_tokens, listed_token, name_of};

use crate::bits::{joined_bits, octets_of_bits};
use crate::out::TokenWriter;
use crate::texts::{octet_text, text_of};
use crate::types::Types;
use asn1_headers::buffer::{DerBuffer, prepend_element};
use asn1_schema::schema::TextKind;
use asn1_schema::tape::Item;
use asn1_words::decimals::push_integer;
use asn1_words::identifiers::{have_arcs, push_arcs};
use asn1_words::words::push_number;
use json::Token;
use std::alloc::{AllocError, Global};
use x690::signed::signed_number;

/// A text of its own.
fn string_of(alloc: Global, text: &[u8]) -> Result<String, AllocError>
    requires { IsUtf8 text.now }
    ensures { IfOk result (λ string. string_bytes string ≡ text.now) }
{
    let string = String::from_utf8_lossy(alloc, text)?;
    Ok(string)
}

/// The text of the number that contents octets say (X.690 8.3).
pub(crate) fn integer_text(alloc: Global, content: &[u8]) -> Result<String, AllocError>
    ensures { IfOk result (λ text.
        string_bytes text ≡ integer_text (twos_complement_value content.now)) }
{
    let mut text = Vec::new(alloc);
    push_integer(&mut text, content)?;
    string_of(alloc, text.as_slice())
}

/// Writes the number that contents octets say.
fn put_integer<W: TokenWriter>(alloc: Global, out: &mut W, content: &[u8]) -> Result<(), AllocError>
    ensures { OnOk result (W.written out.new ≡ W.written out.old ++
        json.number (integer_text (twos_complement_value content.now)) ∷ []) }
{
    let text = integer_text(alloc, content)?;
    out.put(Token::Number(text.as_str()))
}

/// The name of the number that contents octets say, or an empty one.
fn listed_name<'s>(types: Types<'s, '_>, at: Option<usize>, content: &[u8]) -> &'s str
    ensures { result.now ≡
        name_of (labels_at types.entry.names.now at) (twos_complement_value content.now) }
{
    types.name(at, signed_number(content, 16))
}

/// Writes a listed number: its name, or the number where it has none.
fn put_listed<W: TokenWriter>(
    alloc: Global,
    out: &mut W,
    types: Types<'_, '_>,
    at: Option<usize>,
    content: &[u8],
) -> Result<(), AllocError>
    ensures { (n : ℤ) → n ≡ twos_complement_value content.now → OnOk result (W.written out.new ≡
        W.written out.old ++ listed_token (name_of (labels_at types.entry.names.now at) n) n ∷ []) }
{
    let name = listed_name(types, at, content);
    if name.is_empty() {
        return put_integer(alloc, out, content);
    }
    out.put(Token::String(name))
}

/// Writes octets in hexadecimal.
fn put_hexadecimal<W: TokenWriter>(
    alloc: Global,
    out: &mut W,
    octets: &[u8],
) -> Result<(), AllocError>
    ensures { OnOk result (W.written out.new ≡
        W.written out.old ++ json.string (encode_lower octets.now) ∷ []) }
{
    let text = hex::encode(alloc, octets)?;
    out.put(Token::String(text.as_str()))
}

/// The arcs of an identifier, with points between them.
pub(crate) fn arcs_text(alloc: Global, relative: bool, content: &[u8]) -> Result<String, AllocError>
    requires { are_shown relative content.now ≡ true }
    ensures { IfOk result (λ text.
        string_bytes text ≡ spec_arcs_text (spec_arcs relative content.now)) }
{
    let mut text = Vec::new(alloc);
    push_arcs(&mut text, relative, content)?;
    string_of(alloc, text.as_slice())
}

/// Writes an identifier.
fn put_identifier<W: TokenWriter>(
    alloc: Global,
    out: &mut W,
    relative: bool,
    content: &[u8],
) -> Result<(), AllocError>
    ensures { OnOk result (W.written out.new ≡
        W.written out.old ++ json.string (arcs_or_hexadecimal relative content.now) ∷ []) }
{
    if !have_arcs(relative, content) {
        return put_hexadecimal(alloc, out, content);
    }
    let text = arcs_text(alloc, relative, content)?;
    out.put(Token::String(text.as_str()))
}

/// The octets of an element of definite length, where memory suffices.
pub(crate) fn element(
    alloc: Global,
    class: u8,
    constructed: bool,
    number: u32,
    content: &[u8],
) -> Result<DerBuffer, AllocError>
    ensures { IfOk result (λ element. element ≡
        header_octets (class % 4) constructed number (length content.now) ++ content.now) }
{
    let mut octets = DerBuffer::new(alloc);
    if octets.prepend(content).is_err() {
        return Err(AllocError);
    }
    let len = Ok(content.len());
    match prepend_element(class % 4, constructed, number, len, &mut octets) {
        Ok(_) => Ok(octets),
        Err(_) => Err(AllocError),
    }
}

/// Writes an element of any type.
fn put_element<W: TokenWriter>(
    alloc: Global,
    out: &mut W,
    identifier: (u8, bool, u32),
    content: &[u8],
) -> Result<(), AllocError>
    ensures { OnOk result (W.written out.new ≡ W.written out.old ++ json.string
        (encode_lower (header_octets (identifier.0 % 4) identifier.1 identifier.2
        (length content.now) ++ content.now)) ∷ []) }
{
    let (class, constructed, number) = identifier;
    let octets = element(alloc, class, constructed, number, content)?;
    put_hexadecimal(alloc, out, octets.as_bytes())
}

/// The text of how many there are.
pub fn count_text(alloc: Global, count: usize) -> Result<String, AllocError>
    ensures { IfOk result (λ text. string_bytes text ≡ number_text count) }
{
    let mut text = Vec::new(alloc);
    push_number(&mut text, count as u64)?;
    string_of(alloc, text.as_slice())
}

/// Writes a bit string as an object.
fn put_bits<W: TokenWriter>(
    alloc: Global,
    out: &mut W,
    pieces: &[Item<'_>],
) -> Result<(), AllocError>
    ensures { OnOk result (W.written out.new ≡
        W.written out.old ++ bits_tokens (all_bits_of (marks pieces.now))) }
{
    let bits = joined_bits(alloc, pieces)?;
    let octets = octets_of_bits(alloc, bits.as_slice())?;
    let count = count_text(alloc, bits.len())?;
    out.put(Token::BeginObject)?;
    out.put(Token::Key("value"))?;
    put_hexadecimal(alloc, out, octets.as_slice())?;
    out.put(Token::Key("length"))?;
    out.put(Token::Number(count.as_str()))?;
    out.put(Token::EndObject)
}

/// The octets of a piece.
fn octets_in<'a>(piece: &Item<'a>) -> &'a [u8]
    ensures { result.now ≡ octets_of (mark piece.now) }
{
    match piece {
        Item::Octets(octets) => octets,
        Item::Text(_, octets) => octets,
        Item::Time(_, octets) => octets,
        _ => &[],
    }
}

/// The octets of pieces.
fn joined_octets(alloc: Global, pieces: &[Item<'_>]) -> Result<Vec<u8>, AllocError>
    ensures { IfOk result (λ octets. octets.items ≡ all_octets (marks pieces.now)) }
{
    let mut octets = Vec::new(alloc);
    for piece in pieces {
        octets.extend_from_slice(octets_in(piece))?;
    }
    Ok(octets)
}

/// Writes the text of a character string.
fn put_text<W: TokenWriter>(
    alloc: Global,
    out: &mut W,
    kind: TextKind,
    pieces: &[Item<'_>],
) -> Result<(), AllocError>
    ensures { OnOk result (W.written out.new ≡
        W.written out.old ++ json.string (text_of kind (all_octets (marks pieces.now))) ∷ []) }
{
    let octets = joined_octets(alloc, pieces)?;
    let text = text_of(alloc, kind, octets.as_slice())?;
    out.put(Token::String(text.as_str()))
}

/// Writes a time.
fn put_time<W: TokenWriter>(
    alloc: Global,
    out: &mut W,
    pieces: &[Item<'_>],
) -> Result<(), AllocError>
    ensures { OnOk result (W.written out.new ≡
        W.written out.old ++ json.string (encode_utf8_all (all_octets (marks pieces.now))) ∷ []) }
{
    let octets = joined_octets(alloc, pieces)?;
    let text = octet_text(alloc, octets.as_slice())?;
    out.put(Token::String(text.as_str()))
}

/// Writes an octet string in hexadecimal.
fn put_octets<W: TokenWriter>(
    alloc: Global,
    out: &mut W,
    pieces: &[Item<'_>],
) -> Result<(), AllocError>
    ensures { OnOk result (W.written out.new ≡
        W.written out.old ++ json.string (encode_lower (all_octets (marks pieces.now))) ∷ []) }
{
    let octets = joined_octets(alloc, pieces)?;
    put_hexadecimal(alloc, out, octets.as_slice())
}

/// Writes the leaf that pieces join to.
pub fn put_leaf<W: TokenWriter>(
    alloc: Global,
    out: &mut W,
    types: Types<'_, '_>,
    at: Option<usize>,
    pieces: &[Item<'_>],
) -> Result<(), AllocError>
    ensures { OnOk result (W.written out.new ≡ W.written out.old ++
        leaf_tokens (labels_at types.entry.names.now at) (joined_leaf (marks pieces.now))) }
{
    match pieces.first() {
        Some(Item::Boolean(truth)) => out.put(Token::Bool(*truth)),
        Some(Item::Integer(content)) => put_integer(alloc, out, content),
        Some(Item::Enumerated(content)) => put_listed(alloc, out, types, at, content),
        Some(Item::Bits(_, _)) => put_bits(alloc, out, pieces),
        Some(Item::Octets(_)) => put_octets(alloc, out, pieces),
        Some(Item::Identifier(relative, content)) => {
            put_identifier(alloc, out, *relative, content)
        }
        Some(Item::Text(kind, _)) => put_text(alloc, out, *kind, pieces),
        Some(Item::Time(_, _)) => put_time(alloc, out, pieces),
        Some(Item::Any(class, constructed, number, content)) => {
            put_element(alloc, out, (*class, *constructed, *number), content)
        }
        _ => out.put(Token::Null),
    }
}

/// The items between the first one and the last one.
fn inside<'t, 'a>(items: &'t [Item<'a>]) -> &'t [Item<'a>]
    ensures { (first last : Mark) (inner : List Mark) →
        marks items.now ≡ first ∷ (inner ++ last ∷ []) → marks result.now ≡ inner }
{
    if items.is_empty() {
        return items;
    }
    let last = items.len() - 1;
    let first = last.min(1);
    &items[first..last]
}

/// Whether the pieces of a string begin.
fn has_pieces(value: &[Item<'_>]) -> bool
    ensures { result ≡ begins_pieces (marks value.now) }
{
    matches!(value.first(), Some(Item::Pieces(_)))
}

/// The pieces of a leaf: the one item that it is, or those between its brackets.
pub fn pieces_of<'t, 'a>(value: &'t [Item<'a>]) -> &'t [Item<'a>]
    ensures { (kept : Kept) (l : LeafValue) → marks value.now ≡ tape_of kept →
        value_of kept ≡ leaf l →
        joined_leaf (marks result.now) ≡ l }
{
    if has_pieces(value) {
        return inside(value);
    }
    value
}
