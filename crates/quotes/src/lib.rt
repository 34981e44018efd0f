// Quotes: strings in quotes and constants, parts of a pool put into lent room. A part that would go past the pool's end is short. It
// promises the text that the definitions of writing give. The lines of the text stand above it.
#![tactic(auto)]

ghost use Rattle.std.specs.Prelude.{◌≡◌, true, [], ◌∷◌, ◌+◌, ◌<◌};
ghost use Rattle.ground.specs.Lists.{every};
ghost use Rattle.ground.specs.Regions.{part};
ghost use Rattle.netlist.specs.Rules.{is_trit};
ghost use Rattle.writing.specs.Words.{raw_byte, hex_digit, escaped, quoted, trit_char, trits};
ghost use Rattle.writing.specs.Stands.{Wrote};

use words::wide;
use writing::room::{end_of, put};

fn is_raw(b: u8) -> bool
    ensures { result ≡ raw_byte b }
{
    if b < 32 {
        return false;
    }
    if 126 < b {
        return false;
    }
    if b == 34 {
        return false;
    }
    if b == 92 {
        return false;
    }
    true
}

fn hex_digit(d: u8) -> u8
    requires { d < 16 }
    ensures { result ≡ hex_digit d }
{
    if d < 10 {
        return 48 + d;
    }
    87 + d
}

// A byte of a string: itself, or `\` and its two digits.
fn put_byte(room: &mut [u8], n: usize, b: u8) -> usize
    ensures { Wrote room.old n (escaped (b ∷ [])) room.new result }
{
    if is_raw(b) {
        return put(room, n, b);
    }
    let m = put(room, n, 92);
    let m = put(room, m, hex_digit(b / 16));
    put(room, m, hex_digit(b % 16))
}

fn put_bytes(room: &mut [u8], n: usize, pool: &[u8], from: u32, size: u32) -> usize
    ensures { Wrote room.old n (escaped (part from size pool.now)) room.new result }
{
    let start = wide(from);
    let end = end_of(start, size, pool.len());
    let mut n = n;
    for i in start..end {
        n = put_byte(room, n, pool[i]);
    }
    n
}

// The string in quotes.
pub fn put_quoted(room: &mut [u8], n: usize, pool: &[u8], from: u32, size: u32) -> usize
    ensures { Wrote room.old n (quoted (part from size pool.now)) room.new result }
{
    let m = put(room, n, 34);
    let m = put_bytes(room, m, pool, from, size);
    put(room, m, 34)
}

fn trit_char(t: u8) -> u8
    requires { t < 3 }
    ensures { result ≡ trit_char t }
{
    if t == 2 {
        return 88;
    }
    48 + t
}

// The trits of a constant.
pub fn put_trits(room: &mut [u8], n: usize, pool: &[u8], from: u32, size: u32) -> usize
    requires { every is_trit pool.now ≡ true }
    ensures { Wrote room.old n (trits (part from size pool.now)) room.new result }
{
    let start = wide(from);
    let end = end_of(start, size, pool.len());
    let mut n = n;
    for i in start..end {
        n = put(room, n, trit_char(pool[i]));
    }
    n
}
