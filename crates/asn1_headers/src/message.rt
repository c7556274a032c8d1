//! Texts of refusals, which name no lifetime.
//!
//! A text that is borrowed for `'static` made `Error` name that lifetime, and callers could not write an optional value
//! under a tag that borrows. Where a type argument names two lifetimes, of which such an `Error` counts as one, no call
//! has a proof whose signature names `'static` too. The smallest one is `x.len()` at an
//! `Option<Tagged<Leaf<'_>, Error>>`, where `len` answers `Result<usize, Error>` and `Tagged<T, E>` names the error
//! type.
ghost use Rattle.std.specs.Prelude.{◌≡◌, ◌≤◌, ◌<◌, length, take, string_bytes, nat_eq, Some, IsUtf8, IsOk, IfOk};
ghost use Rattle.std.specs.Cmp.{on_equiv, on_per, partial_equiv_from_equiv};
ghost use Rattle.std.specs.Cmp.Lexicographic.{pointwise, nat_list_eq_equiv};

use std::alloc::{AllocError, Global};
use std::fmt;

/// A text that lies in the value itself.
// The length has one octet. `arrayvec::ArrayString` counts by a `usize`: of 16 octets it would make an `Error` as large
// as this one, 40 octets.
#[derive(Clone, Copy)]
struct Inline {
    len: u8,
    octets: [u8; 30],
    ghost fits: { len ≤ 30 },
    ghost utf8: { ∥ IsUtf8 (take len octets) ∥₁ },
}

impl Inline {
    fn new(text: &str) -> Inline
        requires { length text.now ≤ 30 }
        ensures { take result.len result.octets ≡ text.now }
    {
        let text = text.as_bytes();
        let mut octets = [0; 30];
        octets[..text.len()].copy_from_slice(text);
        Inline {
            len: text.len() as u8,
            octets,
        }
    }

    fn as_str(&self) -> &str
        ensures { result.now ≡ take self.now.len self.now.octets }
    {
        str::from_utf8(&self.octets[..self.len as usize]).unwrap()
    }
}

#[derive(Clone, Drop)]
enum Held {
    Inline(Inline),
    Owned(String),
}

/// The text of a refusal. A short one lies in the value itself, and a longer one in a `String`.
///
/// Two are equal where their texts are.
#[derive(Drop)]
pub struct Message {
    held: Held,
}

impl Message {
    ghost use Rattle.asn1_headers.specs.Message.{message_text, IsLongestBeginning};

    /// How many octets a text may have that lies in the value itself.
    pub const CAPACITY: usize = 30;

    /// A short text. A longer one is cut to `CAPACITY` octets, or to the end of a character before. This takes no
    /// memory.
    pub fn short(text: &str) -> Message
        ensures whole { length text.now ≤ Message.CAPACITY → message_text result ≡ text.now }
        ensures truncated { Message.CAPACITY < length text.now →
            IsLongestBeginning Message.CAPACITY text.now (message_text result) }
    {
        let kept = text.floor_char_boundary(Message::CAPACITY);
        Message {
            held: Held::Inline(Inline::new(&text[..kept])),
        }
    }

    /// A text of any length. This takes memory where the text is longer than `CAPACITY`.
    pub fn copied(alloc: Global, text: &str) -> Result<Message, AllocError>
        ensures ok { IfOk result (λ message. message_text message ≡ text.now) }
        ensures short { length text.now ≤ Message.CAPACITY → IsOk result }
    {
        if text.len() <= Message::CAPACITY {
            Ok(Message::short(text))
        } else {
            Ok(Message::from(String::from_str(alloc, text)?))
        }
    }

    /// The text.
    pub fn as_str(&self) -> &str
        ensures { result.now ≡ message_text self.now }
    {
        match &self.held {
            Held::Inline(text) => text.as_str(),
            Held::Owned(text) => text.as_str(),
        }
    }
}

impl From<String> for Message {
    ghost use Rattle.asn1_headers.specs.Message.{message_text};

    ghost from_gives = { λ text message. message_text message ≡ string_bytes text };

    fn from(text: String) -> Message {
        Message {
            held: Held::Owned(text),
        }
    }
}

impl Clone for Message {
    ghost use Rattle.asn1_headers.specs.Message.{message_text};

    ghost is_clone = { λ message copy. message_text copy ≡ message_text message };

    fn clone(&self) -> Result<Message, AllocError> {
        Ok(Message {
            held: self.held.clone()?,
        })
    }
}

impl PartialEq for Message {
    ghost use Rattle.asn1_headers.specs.Message.{message_text};

    ghost eq = { λ m n. pointwise nat_eq (message_text m) (message_text n) };

    ghost laws = { on_per message_text (partial_equiv_from_equiv nat_list_eq_equiv) };

    fn eq(&self, other: &Self) -> bool {
        self.as_str() == other.as_str()
    }
}

impl Eq for Message {
    ghost use Rattle.asn1_headers.specs.Message.{message_text};

    ghost laws = { on_equiv message_text nat_list_eq_equiv };
}

impl fmt::Debug for Message {
    fn fmt<W: fmt::Write>(&self, f: &mut fmt::Formatter<W>) -> fmt::Result {
        fmt::Debug::fmt(&self.as_str(), f)
    }
}

impl fmt::Display for Message {
    ghost use Rattle.asn1_headers.specs.Message.{message_text};

    ghost output = { λ message. Some (message_text message) };

    fn fmt<W: fmt::Write>(&self, f: &mut fmt::Formatter<W>) -> fmt::Result {
        f.pad(self.as_str())
    }
}
