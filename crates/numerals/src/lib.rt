// Numerals: digits from a place on, with a limit, and the parts `+`, `:` and `*`. No number of digits overflows. It promises the numbers
// and places that the definitions of signs give. Tokens stand above it.
#![tactic(auto)]

ghost use Rattle.std.specs.Prelude.{◌≡◌, true, false, ◌+◌, ◌<◌, ◌≤◌};
ghost use Rattle.signs.specs.Bytes.{is_digit};
ghost use Rattle.signs.specs.Pieces.{grown_past, limited, numeral_at, suffix_at};

use signs::pieces::{Numeral, Suffix, between, byte_at};

// A digit, by its byte: that takes fewer steps than its class.
fn is_digit(b: u8) -> bool
    ensures { result ≡ is_digit b }
{
    between(48, 57, b)
}

// The number n with the digit b behind it. Past its limit it stays, so that no number of digits overflows.
fn grown(limit: u32, n: u64, b: u8) -> u64
    requires { (n ≤ 42949672959) × (48 ≤ b) × (b ≤ 57) }
    ensures { (result ≡ grown_past limit n b) × (result ≤ 42949672959) }
{
    if (limit as u64) < n {
        return n;
    }
    n * 10 + ((b as u64) - 48)
}

// The numeral that the digits make.
fn ended(limit: u32, n: u64, end: usize) -> Numeral
    ensures { result ≡ limited limit (record { value = n; end = end }) }
{
    if (limit as u64) < n {
        return Numeral {
            value: 0,
            large: true,
            end,
        };
    }
    Numeral {
        value: n as u32,
        large: false,
        end,
    }
}

// The numeral from a place on.
pub fn numeral_at(text: &[u8], at: usize, limit: u32) -> Numeral
    ensures { result ≡ numeral_at limit text.now at }
{
    let mut n: u64 = 0;
    let mut i = at;
    // By `while`: the place where it ends is the answer, whether a byte ended it or the text; a `for` would tell that place twice.
    while i < text.len() {
        let b = text[i];
        if is_digit(b) {
            n = grown(limit, n, b);
            i += 1;
        } else {
            return ended(limit, n, i);
        }
    }
    ended(limit, n, i)
}

// The part that begins with the mark at a place.
fn suffix_at(text: &[u8], mark: u8, at: usize) -> Suffix
    requires { 0 < mark }
    ensures { result ≡ suffix_at text.now mark at }
{
    let b = byte_at(text, at);
    if b == mark {
        let from = at + 1;
        let d = numeral_at(text, from, 65535);
        let end = d.end;
        return Suffix {
            given: true,
            broken: end == from,
            large: d.large,
            value: d.value,
            end,
        };
    }
    Suffix {
        given: false,
        broken: false,
        large: false,
        value: 0,
        end: at,
    }
}

// The part `+` at a place.
pub fn offset_at(text: &[u8], at: usize) -> Suffix
    ensures { result ≡ suffix_at text.now 43 at }
{
    suffix_at(text, 43, at)
}

// The part `:`.
pub fn width_at(text: &[u8], at: usize) -> Suffix
    ensures { result ≡ suffix_at text.now 58 at }
{
    suffix_at(text, 58, at)
}

// The part `*`.
pub fn count_at(text: &[u8], at: usize) -> Suffix
    ensures { result ≡ suffix_at text.now 42 at }
{
    suffix_at(text, 42, at)
}
