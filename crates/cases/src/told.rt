// Refusals and faults told; bytes told as they are, in hex, or by a sum where they are many.
ghost use Rattle.std.specs.Prelude.{◌<◌};

use crate::rooms::all;
use ground::Refusal;
use std::io;
use std::io::Write;
use tellrefused::tell_refused;

pub(crate) fn tell_unless<W: Write>(to: &mut W, right: bool, what: &[u8]) -> io::Result<()> {
    if right {
        return Ok(());
    }
    to.write_all(what)
}

// A refusal that must leave the room as it was lent.
pub(crate) fn tell_unwritten<W: Write>(to: &mut W, g: Refusal, room: &[u8]) -> io::Result<()> {
    tell_refused(to, g)?;
    tell_unless(to, all(room, 7), b" (a refused room is changed)")
}

fn digit(x: u8) -> u8
    requires { x < 16 }
{
    match x {
        0..=9 => b'0' + x,
        _ => b'a' + (x - 10),
    }
}

// A byte as two digits, in one write: standard output keeps none back, and `{b:02x}` writes a leading zero by itself.
pub(crate) fn tell_hex<W: Write>(to: &mut W, b: u8) -> io::Result<()> {
    to.write_all(&[digit(b / 16), digit(b % 16)])
}

// A word modulo 4,294,967,291: there is no need to divide, since it holds the modulus at most once.
fn small(x: u32) -> u64
    ensures { result < 4294967291 }
{
    if x < 4294967291 {
        return x as u64;
    }
    (x as u64) - 4294967291
}

// A sum modulo 4,294,967,291.
fn plus(sum: u64, x: u64) -> u64
    requires { (sum < 4294967291) × (x < 4294967291) }
    ensures { result < 4294967291 }
{
    let s = sum + x;
    if s < 4294967291 {
        return s;
    }
    s - 4294967291
}

// Each item times its place counted from 1, added up modulo 4,294,967,291: from the end on, the sum of all sums so far.
pub(crate) fn sum<T: Copy + Into<u32>>(items: &[T]) -> u64 {
    let mut last: u64 = 0;
    let mut sum: u64 = 0;
    for x in items.iter().rev() {
        last = plus(last, small((*x).into()));
        sum = plus(sum, last);
    }
    sum
}

// Many of something, told by their number and a sum over their bytes.
pub(crate) fn tell_many<W: Write>(
    to: &mut W,
    count: usize,
    what: &[u8],
    bytes: &[u8],
) -> io::Result<()> {
    write!(to, "{count}")?;
    to.write_all(what)?;
    write!(to, ", sum {}", sum(bytes))
}
