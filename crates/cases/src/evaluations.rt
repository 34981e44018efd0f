// Netlists worked out. Each line says input bits and a text, `BITS |TEXT`: a 0, 1 or X a bit, another digit for a byte that is none;
// `worked` tells how a text is said. The answer is the output bits in the same letters, or what reading or evaluating refuses. Rooms and
// work space are lent full of 7. It is told where a byte past the answer or a refused room is changed, where work space is not clear, and
// where a room just as long as the answer or one byte short is not answered as it must be.
use crate::bits::tell_bits;
use crate::rooms::{all, cleared, tell_exact, tell_short};
use crate::tables::{Tables, tell_said};
use crate::told::{tell_unless, tell_unwritten};
use finding::{find, split_once};
use std::io;
use std::io::Write;
use telling::bits::put_bits;

fn tell_outputs<W: Write>(
    to: &mut W,
    t: Tables<'_>,
    ins: &[u8],
    bits: &[u8],
    past: &[u8],
) -> io::Result<()> {
    let n = bits.len();
    tell_bits(to, bits)?;
    tell_unless(to, all(past, 7), b" (past the answer)")?;
    tell_exact(
        to,
        &mut [7; 4100],
        bits,
        n,
        b" (other bits in a room just as long)",
        |room| t.evaluate(ins, room, &mut [7; 8193]),
    )?;
    if 0 < n {
        tell_short(to, &mut [7; 4100], n - 1, 24, |room| {
            t.evaluate(ins, room, &mut [7; 8193])
        })?;
    }
    Ok(())
}

// The room is longer than every answer: outputs have 4,096 bits in all.
fn tell_tables<W: Write>(to: &mut W, ins: &[u8], t: Tables<'_>) -> io::Result<()> {
    let mut room = [7u8; 4100];
    let mut work = [7u32; 8193];
    match t.evaluate(ins, &mut room, &mut work) {
        Err(g) => tell_unwritten(to, g, &room)?,
        Ok(n) => {
            let (bits, past) = room.split_at(n.min(4100));
            tell_outputs(to, t, ins, bits, past)?;
        }
    }
    tell_unless(to, cleared(&work, 8192), b" (work space is not clear)")
}

pub(crate) fn tell_line<W: Write>(to: &mut W, line: &[u8]) -> io::Result<()> {
    let mut ins = [0u8; 5000];
    let k = put_bits(&line[..find(line, 0, b' ')], &mut ins);
    match split_once(line, b'|') {
        Some((_, said)) => tell_said(to, said, |to, t| tell_tables(to, &ins[..k], t)),
        None => Ok(()),
    }
}
