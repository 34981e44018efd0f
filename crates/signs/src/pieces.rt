// What tokens are made of: a byte at a place, its class with the lent table, and numerals, parts and strings as values.
ghost use Rattle.std.specs.Prelude.{◌≡◌, get_or};
ghost use Rattle.signs.specs.Bytes.{within, among};

use crate::classes::Classes;

// A numeral: its value, or that it is past its limit, and the place past its digits. `large` stays a flag: the next part begins at `end` even
// where the value is too large, so an Option of the value would stand beside `end` all the same.
#[derive(Clone, Copy)]
pub struct Numeral {
    pub value: u32,
    pub large: bool,
    pub end: usize,
}

// A part behind a mark: whether it is written, whether its digits are missing, and its numeral. These stay flags: every part is read before
// any is judged, since refusal 5 of a later part goes before 6 of an earlier one, so each variant of an enum would hold `end`.
#[derive(Clone, Copy)]
pub struct Suffix {
    pub given: bool,
    pub broken: bool,
    pub large: bool,
    pub value: u32,
    pub end: usize,
}

// A byte of a string, and the place past what is written for it.
#[derive(Clone, Copy)]
pub struct Meant {
    pub byte: u8,
    pub end: usize,
}

// The byte at a place, and 0 past the end.
pub fn byte_at(text: &[u8], at: usize) -> u8
    ensures { result ≡ get_or text.now at 0 }
{
    text.get(at).copied().unwrap_or(0)
}

pub fn between(low: u8, high: u8, c: u8) -> bool
    ensures { result ≡ within low high c }
{
    low <= c && c <= high
}

// A byte whose class is one of a range.
pub fn in_classes(t: &Classes, low: u8, high: u8, b: u8) -> bool
    ensures { result ≡ among low high b }
{
    between(low, high, t.class_at(b))
}
