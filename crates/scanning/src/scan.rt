// The whole text in one pass: its length, its bytes, its end.
ghost use Rattle.std.specs.Prelude.{◌≡◌, [], ◌∷◌, ◌+◌, ◌<◌, ◌≤◌, length};
ghost use Rattle.std.proofs.Math.Option.{some};
ghost use Rattle.signs.specs.Bytes.{range};
ghost use Rattle.scanning.specs.Whole.{sequences, tail_of, lacks_past, began_at, unsound, whole_of};
ghost use Rattle.scanning.specs.Modes.{lacking, meant};
ghost use Rattle.scanning.specs.Plain.{Skips};

use ground::{Place, Refusal};

// The mode past a first byte that is not ASCII.
fn long_lead(b: u8) -> u8
    requires { 0x80 ≤ b }
    ensures { meant result ≡ tail_of sequences b }
{
    if b < 0xc2 {
        return 9;
    }
    if b < 0xe0 {
        return 1;
    }
    if b == 0xe0 {
        return 4;
    }
    if b < 0xed {
        return 2;
    }
    if b == 0xed {
        return 5;
    }
    if b < 0xf0 {
        return 2;
    }
    if b == 0xf0 {
        return 6;
    }
    if b < 0xf4 {
        return 3;
    }
    if b == 0xf4 {
        return 7;
    }
    9
}

// The mode past the first byte of a sequence. ASCII comes first: most texts have nothing else.
fn lead(b: u8) -> u8
    ensures { meant result ≡ tail_of sequences b }
{
    if b < 0x0d {
        return 0;
    }
    if b == 0x0d {
        return 8;
    }
    if b < 0x80 {
        return 0;
    }
    long_lead(b)
}

// The mode past a byte that has to lie from `low` to `high`, where `next` stands for what is lacking then.
fn behind(low: u8, high: u8, next: u8, b: u8) -> u8
    requires { next < 9 }
    ensures { meant result ≡ lacks_past (range low high ∷ lacking next) b }
{
    if b < low {
        return 9;
    }
    if high < b {
        return 9;
    }
    next
}

// The mode past the byte.
fn past(mode: u8, b: u8) -> u8
    ensures { meant result ≡ lacks_past (lacking mode) b }
{
    if mode == 0 {
        return lead(b);
    }
    if mode == 1 {
        return behind(0x80, 0xbf, 0, b);
    }
    if mode == 2 {
        return behind(0x80, 0xbf, 1, b);
    }
    if mode == 3 {
        return behind(0x80, 0xbf, 2, b);
    }
    if mode == 4 {
        return behind(0xa0, 0xbf, 1, b);
    }
    if mode == 5 {
        return behind(0x80, 0x9f, 1, b);
    }
    if mode == 6 {
        return behind(0x90, 0xbf, 2, b);
    }
    if mode == 7 {
        return behind(0x80, 0x8f, 2, b);
    }
    behind(0x0a, 0x0a, 0, b)
}

// Where the sequence of the byte at the place `i` began.
fn began(mode: u8, from: usize, i: usize) -> usize
    ensures { result ≡ began_at (lacking mode) from i }
{
    if mode == 0 { i } else { from }
}

// 0 for a plain byte, which is a sequence by itself: ASCII and no CR. 1 for any other byte.
fn odd(b: u8) -> u8
    ensures { (result ≤ 1) × (result ≡ 0 → tail_of sequences b ≡ some []) }
{
    if 0x7f < b {
        return 1;
    }
    if b == 0x0d {
        return 1;
    }
    0
}

// How many of the next 64 bytes are odd. The loop has no way out on the way, so that many bytes can be looked at in one step.
fn odd_ahead(text: &[u8], i: usize) -> u8
    requires { i + 64 ≤ length text.now }
    ensures { result ≡ 0 → Skips text.now [] i (i + 64) }
{
    let mut count: u8 = 0;
    for k in 0..64 {
        count += odd(text[i + k]);
    }
    count
}

// The place past the plain bytes from `start` on, where 64 or more are left to look at.
fn past_blocks(text: &[u8], start: usize) -> usize
    requires { start ≤ length text.now }
    ensures { Skips text.now [] start result }
{
    let size = text.len();
    let mut i = start;
    // By `while`: a step is 64 bytes, and the place where it ends is the answer.
    while 64 <= size - i {
        if odd_ahead(text, i) != 0 {
            return i;
        }
        i += 64;
    }
    i
}

// The place past the plain bytes from `start` on, one by one, and at most at the end of the line. It also stops at the other control
// characters below CR, since one range is tested faster than three bytes.
fn past_bytes(text: &[u8], start: usize) -> usize
    requires { start ≤ length text.now }
    ensures { Skips text.now [] start result }
{
    let size = text.len();
    let mut i = start;
    // By `while`: the place where it ends is the answer, whether a byte ended it or the text; a `for` would tell that place twice.
    while i < size {
        let b = text[i];
        if b < 0x0e {
            return i;
        }
        if 0x7f < b {
            return i;
        }
        i += 1;
    }
    i
}

// The place past the plain bytes from `start` on: many at a time, then one by one.
fn past_plain(text: &[u8], start: usize) -> usize
    requires { start ≤ length text.now }
    ensures { Skips text.now [] start result }
{
    past_bytes(text, past_blocks(text, start))
}

// The place to go on at behind the byte `b`, in the mode past it: no sequence is open in the mode 0, so plain bytes can be left out.
// Many at a time are tried at the start of a line only: a line that has an odd byte often has more of them.
fn onward(text: &[u8], mode: u8, b: u8, i: usize) -> usize
    requires { i ≤ length text.now }
    ensures { Skips text.now (lacking mode) i result }
{
    if mode != 0 {
        return i;
    }
    if b == 0x0a {
        return past_plain(text, i);
    }
    past_bytes(text, i)
}

fn refused(number: u8, at: usize) -> Result<(), Refusal>
    ensures { result ≡ unsound number at }
{
    Err(Refusal {
        number,
        place: Place { at },
    })
}

// The text as a whole: sound, or the refusal 2, 3 or 4 with its place.
pub fn whole(text: &[u8]) -> Result<(), Refusal>
    ensures { result ≡ whole_of text.now }
{
    let size = text.len();
    if 65536 < size {
        return refused(2, 65536);
    }
    let mut mode: u8 = 0;
    let mut from: usize = 0;
    let mut i: usize = past_plain(text, 0);
    // By `while`: a step is a byte or all plain bytes behind it.
    while i < size {
        let b = text[i];
        from = began(mode, from, i);
        mode = past(mode, b);
        if mode == 9 {
            return refused(3, from);
        }
        i = onward(text, mode, b, i + 1);
    }
    if mode != 0 {
        return refused(3, from);
    }
    if size == 0 {
        return refused(4, 0);
    }
    if text[size - 1] == 10 {
        return Ok(());
    }
    refused(4, size)
}
