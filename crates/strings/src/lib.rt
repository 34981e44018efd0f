// Strings: how many bytes a string means and where it ends, or that it is malformed. It promises what the definitions of signs give. Tokens
// and the bytes of strings stand above it.
#![tactic(auto)]

ghost use Rattle.std.specs.Prelude.{◌≡◌, true, ◌&&◌, ◌+◌, ◌<◌, ◌≤◌, length, get_or};
ghost use Rattle.signs.specs.Bytes.{is_hex, is_raw};
ghost use Rattle.signs.specs.Pieces.{taken_at, quoted_at};

use signs::classes::Classes;
use signs::pieces::{between, byte_at};

fn is_hex(t: &Classes, b: u8) -> bool
    ensures { result ≡ is_hex b }
{
    let c = t.class_at(b);
    if between(4, 5, c) {
        return true;
    }
    c == 7
}

// A byte that stands for itself in a string.
fn is_raw(t: &Classes, b: u8) -> bool
    ensures { result ≡ is_raw b }
{
    let c = t.class_at(b);
    if between(1, 3, c) {
        return b == 32;
    }
    if c == 16 {
        return false;
    }
    true
}

// Two hexadecimal digits behind a place.
fn escapes(t: &Classes, text: &[u8], at: usize) -> bool
    requires { at < length text.now }
    ensures { result ≡ is_hex (get_or text.now (at + 1) 0) && is_hex (get_or text.now (at + 2) 0) }
{
    if is_hex(t, byte_at(text, at + 1)) {
        return is_hex(t, byte_at(text, at + 2));
    }
    false
}

// How many bytes of the text one byte of a string takes, where the string goes on there: 3 an escape, 1 a raw byte, 0 for an escape or a
// byte that is malformed. It looks at this one alone, and is not asked at the closing `"`.
fn taken(t: &Classes, text: &[u8], at: usize) -> usize
    requires { at < length text.now }
    ensures { (result ≡ taken_at text.now at) × (result ≤ 3) }
{
    let b = text[at];
    if b == 92 {
        if escapes(t, text, at) {
            return 3;
        }
        return 0;
    }
    if is_raw(t, b) {
        return 1;
    }
    0
}

// The string whose first byte stands at a place, by its size.
pub fn quoted_at(t: &Classes, text: &[u8], at: usize) -> Option<(usize, usize)>
    ensures { result ≡ quoted_at text.now at }
{
    let mut size: usize = 0;
    let mut i = at;
    // By `while`: a byte of a string takes one byte of the text or three.
    while i < text.len() {
        let b = text[i];
        if b == 34 {
            return Some((size, i + 1));
        }
        let n = taken(t, text, i);
        if n == 0 {
            return None;
        }
        size += 1;
        i += n;
    }
    None
}
