//! Elements of any type are put in front.
ghost use Rattle.std.specs.Prelude.{ℕ, List, ◌≡◌, ◌≤◌, ◌↔◌, false, length, IsTrue};
ghost use Rattle.asn1_schema.specs.Reading.{id_of};
ghost use Rattle.asn1_schema.specs.Writing.{Writes, IsAny, MayBeAny};

use crate::any::is_strict_inside;
use crate::elements::Head;
use crate::endings::last_any;
use crate::fault::Fault;
use crate::fronts::{put, put_header};
use crate::schema::Tags;
use crate::tagged::has_a_tag;
use crate::tape::Item;
use asn1_headers::buffer::DerBuffer;

/// Whether an element with this head and these contents octets has one of the tags, and each header within is strict
/// (X.690 10.1).
fn may_be_any(tags: &Tags, depth: usize, head: Head, content: &[u8]) -> bool
    requires { head.indefinite ≡ false }
    ensures { IsTrue result ↔ MayBeAny tags.now depth (id_of head) content.now }
{
    head.class < 4 && has_a_tag(tags, head) && is_strict_inside(depth, head, content)
}

/// Puts an element of any type in front that has one of the tags.
pub(crate) fn put_any(
    tags: &Tags,
    depth: usize,
    tape: &[Item<'_>],
    at: usize,
    buf: &mut DerBuffer,
) -> Result<usize, Fault>
    requires { at ≤ length tape.now }
    ensures { Writes (IsAny tags.now depth) tape.now at buf.old buf.new result }
{
    let Some((class, constructed, number, content)) = last_any(tape, at) else {
        return Err(Fault::Refused);
    };
    let head = Head {
        class,
        constructed,
        indefinite: false,
        number,
        start: 0,
        inner: 0,
    };
    if !may_be_any(tags, depth, head, content) {
        return Err(Fault::Refused);
    }
    let held = buf.len();
    match put(content, buf) {
        Ok(()) => match put_header(class, constructed, number, held, buf) {
            Ok(()) => Ok(at - 1),
            Err(e) => Err(e),
        },
        Err(e) => Err(e),
    }
}
