// The run of a list, told.
ghost use Rattle.std.specs.Prelude.{◌≡◌, ◌≤◌, length};

use crate::bits::tell_bits;
use crate::rooms::{all, at_front, cleared, tell_exact, tell_short};
use crate::tables::text_room;
use crate::told::{tell_many, tell_unless, tell_unwritten};
use finding::{find, hex};
use ground::Refusal;
use running::run;
use std::io;
use std::io::Write;
use telling::bits::put_bits;
use worked::put_text;

// The list that hex says, as much as there is room for; a blank says nothing, and neither does a digit alone at the end.
fn put_list(text: &[u8], room: &mut [u8]) -> usize
    ensures { result ≤ length room.old }
{
    let mut n: usize = 0;
    let mut left = text;
    while let [high, behind @ ..] = left {
        left = behind;
        match (*high, behind) {
            (b' ', _) | (_, []) => {}
            (high, [low, rest @ ..]) => {
                if n < room.len() {
                    room[n] = hex(high) * 16 + hex(*low);
                    n += 1;
                }
                left = rest;
            }
        }
    }
    n
}

// The first n bits, or their number and sum where they are many.
fn tell_all_bits<W: Write>(to: &mut W, bits: &[u8]) -> io::Result<()> {
    if bits.len() <= 256 {
        return tell_bits(to, bits);
    }
    tell_many(to, bits.len(), b" bits", bits)
}

// A room just as long as the answer takes it, and the slots are the same.
fn tell_same<W: Write>(
    to: &mut W,
    list: &[u8],
    ins: &[u8],
    bits: &[u8],
    slots: &[u8],
) -> io::Result<()> {
    let mut work = [7u8; 8193];
    tell_exact(
        to,
        &mut [7; 8200],
        bits,
        bits.len(),
        b" (other bits in a room just as long)",
        |room| run(list, ins, room, &mut work),
    )?;
    tell_unless(
        to,
        slots == &work[..],
        b" (other slots beside a room just as long)",
    )
}

// A room one byte short is refused 24 at 0, nothing is written, and work space is clear.
fn tell_refused_in<W: Write>(to: &mut W, list: &[u8], ins: &[u8], n: usize) -> io::Result<()> {
    let mut work = [7u8; 8193];
    tell_short(to, &mut [7; 8200], n, 24, |room| {
        run(list, ins, room, &mut work)
    })?;
    tell_unless(
        to,
        cleared(&work, 8192),
        b" (work space beside a short room is not clear)",
    )
}
// Work space one byte short is refused 1 at 0, and nothing is written.
fn tell_narrow<W: Write>(to: &mut W, list: &[u8], ins: &[u8]) -> io::Result<()> {
    let mut room = [7u8; 8200];
    let mut work = [7u8; 8191];
    let r = run(list, ins, &mut room, &mut work);
    tell_unless(
        to,
        r == Err(at_front(1)),
        b" (work space one byte short not refused 1 at 0)",
    )?;
    tell_unless(
        to,
        all(&room, 7),
        b" (a room beside short work space is changed)",
    )?;
    tell_unless(to, all(&work, 7), b" (short work space is changed)")
}

fn tell_outputs<W: Write>(
    to: &mut W,
    list: &[u8],
    ins: &[u8],
    bits: &[u8],
    past: &[u8],
    work: &[u8; 8193],
) -> io::Result<()> {
    let (slots, behind) = work.split_at((list.len() / 8).min(8192));
    tell_all_bits(to, bits)?;
    to.write_all(b", slots ")?;
    tell_all_bits(to, slots)?;
    tell_unless(to, all(past, 7), b" (past the answer)")?;
    tell_unless(
        to,
        cleared(behind, 8192 - slots.len()),
        b" (work space past the slots is not clear)",
    )?;
    tell_same(to, list, ins, bits, work)?;
    if 0 < bits.len() {
        tell_refused_in(to, list, ins, bits.len() - 1)?;
    }
    Ok(())
}

fn tell_none<W: Write>(to: &mut W, g: Refusal, outs: &[u8], work: &[u8]) -> io::Result<()> {
    tell_unwritten(to, g, outs)?;
    tell_unless(
        to,
        cleared(work, 8192),
        b" (work space of a refusal is not clear)",
    )
}

// The room is longer than every answer: a list has at most 8,192 output bits.
fn tell_ran<W: Write>(to: &mut W, list: &[u8], ins: &[u8]) -> io::Result<()> {
    let mut outs = [7u8; 8200];
    let mut work = [7u8; 8193];
    match run(list, ins, &mut outs, &mut work) {
        Err(g) => tell_none(to, g, &outs, &work)?,
        Ok(n) => {
            let (bits, past) = outs.split_at(n.min(8200));
            tell_outputs(to, list, ins, bits, past, &work)?;
        }
    }
    tell_narrow(to, list, ins)
}

// Room for a list in hex.
fn hex_room() -> [u8; 140000]
    ensures { 140000 ≡ length result }
{
    [0; 140000]
}

// The run of the list that a line says, under the bits at the front of the letters.
pub(crate) fn tell_run<W: Write>(to: &mut W, letters: &[u8], said: &[u8]) -> io::Result<()> {
    let mut text = hex_room();
    let mut list = text_room();
    let mut ins = [0u8; 5000];
    let size = put_text(said, &mut text);
    let n = put_list(&text[..size], &mut list);
    let k = put_bits(&letters[..find(letters, 0, b' ')], &mut ins);
    tell_ran(to, &list[..n], &ins[..k])
}
