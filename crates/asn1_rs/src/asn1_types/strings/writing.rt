//! Texts in a code of characters, as they are written.
ghost use Rattle.std.specs.Prelude.{◌≡◌, ◌+◌, true, false, length, chars, IfErr};
ghost use Rattle.x690.specs.Characters.{code_of};
ghost use Rattle.asn1_headers.specs.Prepended.{Prepended};
ghost use Rattle.asn1_headers.specs.Writer.{Wrote, MayRefuse};
ghost use Rattle.asn1_rs.specs.CodedStrings.{coded_string_leaf, coded_octets};
ghost use Rattle.asn1_rs.specs.Laws.CodedStrings.{coded_string_lawful};
ghost use Rattle.asn1_rs.specs.Laws.Leaf.{copying_written};

use crate::asn1_types::strings::CodedString;
use crate::asn1_types::strings::kinds::StringKind;
use crate::kinds::writing::WritesElement;
use asn1_headers::buffer::{DerBuffer, prepend_behind};
use asn1_headers::error::{Error, SerializeResult};
use asn1_headers::writer::{DerWrite, add_written, put_all};
use std::alloc::Global;
use x690::characters::{CharacterCode, coded_len, fill, fill_back};

/// Appends the text in a code, by pieces of 256 octets at most, and answers the number of octets.
/// No memory is asked for.
fn put_text<C: CharacterCode, W: DerWrite>(text: &str, w: &mut W) -> SerializeResult<usize>
    ensures wrote { Wrote (code_of C.octets_of (chars text.now)) (W.state w.old) (W.state w.new)
        result }
    ensures refused { IfErr result
        (MayRefuse false (length (code_of C.octets_of (chars text.now)))) }
{
    let mut piece = [0; 256];
    let mut rest = text;
    let mut written = 0;
    while !rest.is_empty() {
        let (len, others) = fill::<C>(rest, &mut piece);
        let count = put_all(w, &piece[..len])?;
        written = add_written(written, count)?;
        rest = others;
    }
    Ok(written)
}

/// Puts the text in a code before the octets of the buffer, and answers the number of octets. It goes from the back, by
/// pieces of 256 octets at most. What was put stays where a piece before it finds no room.
fn prepend_text<C: CharacterCode>(text: &str, buf: &mut DerBuffer) -> SerializeResult<usize>
    ensures prepended { Prepended (code_of C.octets_of (chars text.now)) buf.old buf.new result }
    ensures refused { IfErr result
        (MayRefuse true (length (code_of C.octets_of (chars text.now)) + length buf.old)) }
{
    let mut piece = [0; 260];
    let mut rest = text;
    let mut count = 0;
    while !rest.is_empty() {
        let (at, others) = fill_back::<C>(rest, &mut piece);
        count = match prepend_behind(&piece[at..256], count, buf) {
            Ok(total) => total,
            Err(e) => return Err(e),
        };
        rest = others;
    }
    Ok(count)
}

impl<K: StringKind<Characters: CharacterCode>> WritesElement for CodedString<'_, K> {
    ghost octets = { coded_octets K.Characters.octets_of };

    fn count_octets(&self) -> Result<usize, Error> {
        coded_len::<K::Characters>(self.as_str()).ok_or(Error::InvalidLength)
    }

    fn put_octets<W: DerWrite>(&self, w: &mut W) -> SerializeResult<usize> {
        put_text::<K::Characters, W>(self.as_str(), w)
    }

    fn prepend_contents(&self, _alloc: Global, buf: &mut DerBuffer) -> SerializeResult<usize> {
        prepend_text::<K::Characters>(self.as_str(), buf)
    }

    ghost written = { copying_written (coded_string_leaf (K.Number.TAG).0 K.Characters.octets_of)
        (coded_string_lawful (K.Number.TAG).0 K.Characters.octets_of K.small K.primitive
        K.Characters.is) };
}
