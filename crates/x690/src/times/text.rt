//! Texts of ASCII characters that lie in the value itself, with no memory of their own: those of times.
ghost use Rattle.std.specs.Prelude.{ℕ, ◌≡◌, ◌+◌, ◌^◌, ◌<◌, ◌≤◌, ◌∷◌, ◌++◌, List, [], length, take, IsAscii};
ghost use Rattle.std.specs.Prelude.{codes};
ghost use Rattle.x690.specs.Times.{digits, filled, fraction_text, offset_text, zone_text, calendar_text};

use super::shown::is_west;
use super::{Moment, TimeZone};
use crate::digits::count_base_10;
use std::marker::Model;

/// Fills the places with the last digits of the number.
fn write_last_digits(number: usize, out: &mut [u8])
    ensures { out.new ≡ digits (length out.old) number }
{
    let mut left = number;
    let mut place = out.len();
    while place > 0 {
        place -= 1;
        out[place] = b'0' + (left % 10) as u8;
        left /= 10;
    }
}

/// The text of a time, which lies in the value itself: at most 43 octets, each an ASCII character.
#[derive(Debug, Drop)]
pub struct ShownText {
    octets: [u8; 43],
    len: usize,
}

impl Model for ShownText {
    ghost Value = { List ℕ };

    ghost view = { λ t. take t.len t.octets };

    ghost invariant = { λ t. (t.len ≤ 43) × IsAscii (take t.len t.octets) };
}

impl ShownText {
    /// A text of no octets.
    #[inline(always)]
    pub(crate) fn new() -> ShownText
        ensures { result ≡ [] }
    {
        ShownText {
            octets: [0; 43],
            len: 0,
        }
    }

    /// The text.
    pub fn as_str(&self) -> &str
        ensures text { result.now ≡ self.now }
        ensures short { length self.now ≤ 43 }
    {
        str::from_utf8(&self.octets[..self.len]).unwrap()
    }

    /// Puts a character behind the text.
    #[inline(always)]
    pub(crate) fn push(&mut self, character: u8)
        requires ascii { character < 128 }
        requires room { length self.old < 43 }
        ensures { self.new ≡ self.old ++ character ∷ [] }
    {
        self.octets[self.len] = character;
        self.len += 1;
    }

    /// Puts a number of at most `MOST` digits behind the text, filled with zeros to the width.
    fn push_filled<const WIDTH: usize, const MOST: usize>(&mut self, number: u32)
        requires some { 1 ≤ WIDTH }
        requires width { WIDTH ≤ MOST }
        requires number { number < 10 ^ MOST }
        requires room { length self.old + MOST ≤ 43 }
        ensures text { self.new ≡ self.old ++ filled WIDTH number }
        ensures few { length self.new ≤ length self.old + MOST }
    {
        let count = count_base_10(number).max(WIDTH);
        let end = self.len + count;
        write_last_digits(number as usize, &mut self.octets[self.len..end]);
        self.len = end;
    }

    /// Puts a number behind the text, in two digits or in three.
    fn push_two(&mut self, number: u8)
        requires { length self.old + 3 ≤ 43 }
        ensures text { self.new ≡ self.old ++ filled 2 number }
        ensures few { length self.new ≤ length self.old + 3 }
    {
        self.push_filled::<2, 3>(u32::from(number));
    }

    /// Puts a character and then a number behind the text, in two digits or in three.
    fn push_then_two(&mut self, character: u8, number: u8)
        requires ascii { character < 128 }
        requires room { length self.old + 4 ≤ 43 }
        ensures text { self.new ≡ self.old ++ character ∷ filled 2 number }
        ensures few { length self.new ≤ length self.old + 4 }
    {
        self.push(character);
        self.push_two(number);
    }

    /// Puts the fields from the year to the second behind the text, as `YYYY-MM-DD hh:mm:ss`.
    pub(crate) fn push_calendar(&mut self, m: &Moment)
        requires { length self.old + 30 ≤ 43 }
        ensures text { self.new ≡ self.old ++ calendar_text m.now }
        ensures few { length self.new ≤ length self.old + 30 }
    {
        self.push_filled::<4, 10>(m.year);
        self.push_then_two(b'-', m.month);
        self.push_then_two(b'-', m.day);
        self.push_then_two(b' ', m.hour);
        self.push_then_two(b':', m.minute);
        self.push_then_two(b':', m.second);
    }

    /// Puts the fields from the year to the second behind the text, with nothing between them.
    pub(crate) fn push_fields(&mut self, m: &Moment)
        requires { length self.old + 25 ≤ 43 }
        ensures text { self.new ≡ self.old ++ filled 4 m.now.year ++ filled 2 m.now.month ++
            filled 2 m.now.day ++ filled 2 m.now.hour ++ filled 2 m.now.minute ++
            filled 2 m.now.second }
        ensures few { length self.new ≤ length self.old + 25 }
    {
        self.push_filled::<4, 10>(m.year);
        self.push_two(m.month);
        self.push_two(m.day);
        self.push_two(m.hour);
        self.push_two(m.minute);
        self.push_two(m.second);
    }

    /// Puts the milliseconds behind the text, where there are some.
    pub(crate) fn push_fraction(&mut self, millisecond: Option<u16>)
        requires { length self.old + 6 ≤ 43 }
        ensures text { self.new ≡ self.old ++ fraction_text millisecond }
        ensures few { length self.new ≤ length self.old + 6 }
    {
        let m = millisecond.unwrap_or(0);
        if m == 0 {
            return;
        }
        self.push(b'.');
        let m = u32::from(m);
        if m > 999 {
            self.push_filled::<1, 5>(m);
        } else if m % 100 == 0 {
            self.push_filled::<1, 1>(m / 100);
        } else if m % 10 == 0 {
            self.push_filled::<2, 2>(m / 10);
        } else {
            self.push_filled::<3, 3>(m);
        }
    }

    /// Puts hours and minutes ahead of UTC behind the text.
    fn push_offset(&mut self, hours: i8, minutes: i8)
        requires { length self.old + 7 ≤ 43 }
        ensures text { self.new ≡ self.old ++ offset_text hours minutes }
        ensures few { length self.new ≤ length self.old + 7 }
    {
        let sign = if is_west(hours, minutes) { b'-' } else { b'+' };
        self.push_then_two(sign, hours.unsigned_abs());
        self.push_two(minutes.unsigned_abs());
    }

    /// Puts a zone behind the text, and nothing where none is defined.
    pub(crate) fn push_zone(&mut self, zone: TimeZone)
        requires { length self.old + 7 ≤ 43 }
        ensures text { self.new ≡ self.old ++ zone_text [] zone }
        ensures few { length self.new ≤ length self.old + 7 }
    {
        match zone {
            TimeZone::Undefined => {}
            TimeZone::Z => self.push(b'Z'),
            TimeZone::Offset(hours, minutes) => self.push_offset(hours, minutes),
        }
    }
}
