//! The lines of a text.
ghost use Rattle.std.specs.Prelude.{◌≡◌, ◌+◌, ◌^◌, ◌<◌, ◌≤◌, [], length, take, get_or, OnSome, IfSome, IfNone};
ghost use Rattle.x690.specs.Sets.{AllIn};
ghost use Rattle.asn1_engine.specs.Pem.{IsLine, is_no_feed};

use asn1_words::octets::behind;

/// How many octets stand before the first line feed, or in all where there is none.
fn line_len(text: &[u8]) -> usize
    ensures within { result ≤ length text.now }
    ensures line { AllIn is_no_feed (take result text.now) }
    ensures end { result < length text.now → get_or text.now result 0 ≡ 10 }
{
    let mut len = 0;
    while len < text.len() && text[len] != b'\n' {
        len += 1;
    }
    len
}

/// The lines of a text that are still to come.
#[derive(Debug, Drop)]
pub struct Lines<'a> {
    /// What follows the lines that were taken.
    pub rest: &'a [u8],
    /// How many lines were taken.
    pub taken: u64,
}

impl<'a> Lines<'a> {
    /// All lines of a text.
    pub fn new(text: &'a [u8]) -> Lines<'a>
        ensures rest { result.rest.now ≡ text.entry.now }
        ensures taken { result.taken ≡ 0 }
    {
        Lines {
            rest: text,
            taken: 0,
        }
    }

    /// The next line, without its line feed; `None` where no text is left.
    pub fn next_line(&mut self) -> Option<&'a [u8]>
        requires { self.old.taken + length self.old.rest.now < 2 ^ 64 }
        ensures some { IfSome result (λ line. IsLine self.old.rest.now line.now self.new.rest.now) }
        ensures counted { OnSome result (self.new.taken ≡ self.old.taken + 1) }
        ensures fewer { OnSome result (length self.new.rest.now < length self.old.rest.now) }
        ensures none { IfNone result ((self.old.rest.now ≡ []) × (self.new ≡ self.old)) }
    {
        if self.rest.is_empty() {
            return None;
        }
        let len = line_len(self.rest);
        let (line, end) = self.rest.split_at(len);
        self.rest = behind(end, 1);
        self.taken += 1;
        Some(line)
    }
}
