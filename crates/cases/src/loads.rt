// A text's load list, told.
ghost use Rattle.std.specs.Prelude.{◌≡◌, length};

use crate::rooms::{all, at_front, cleared, tell_exact, tell_short};
use crate::tables::{Tables, tell_said};
use crate::told::{tell_hex, tell_many, tell_unless, tell_unwritten};
use ground::Refusal;
use std::io;
use std::io::Write;

// The records in hex, a blank before each but the first.
fn tell_bytes<W: Write>(to: &mut W, list: &[u8]) -> io::Result<()> {
    for (i, b) in list.iter().enumerate() {
        if 0 < i && i % 8 == 0 {
            to.write_all(b" ")?;
        }
        tell_hex(to, *b)?;
    }
    Ok(())
}

// A list of so many records: in hex, or by number and sum where it is long.
fn tell_records<W: Write>(to: &mut W, count: usize, list: &[u8]) -> io::Result<()> {
    if count <= 64 {
        return tell_bytes(to, list);
    }
    tell_many(to, count, b" records", list)
}

// The room is longer than every list: 8,192 records have 65,536 bytes.
fn list_room() -> [u8; 65540]
    ensures { 65540 ≡ length result }
{
    [7; 65540]
}

fn tell_clear<W: Write>(to: &mut W, work: &[u32]) -> io::Result<()> {
    tell_unless(to, cleared(work, 8192), b" (work space is not clear)")
}

// A room too short is refused this number at 0, and nothing is written.
fn tell_refused_in<W: Write>(to: &mut W, t: Tables<'_>, n: usize, number: u8) -> io::Result<()> {
    let mut room = list_room();
    let mut work = [7u32; 8193];
    tell_short(
        to,
        &mut room,
        n,
        number,
        |room| t.translate(room, &mut work),
    )?;
    tell_clear(to, &work)
}

// Work space one word short is refused 1 at 0, and nothing is written.
fn tell_narrow<W: Write>(to: &mut W, t: Tables<'_>) -> io::Result<()> {
    let mut room = list_room();
    let mut work = [7u32; 8191];
    let r = t.translate(&mut room, &mut work);
    tell_unless(
        to,
        r == Err(at_front(1)),
        b" (work space one word short not refused 1 at 0)",
    )?;
    tell_unless(
        to,
        all(&room, 7),
        b" (a room beside short work space is changed)",
    )?;
    tell_unless(to, all(&work, 7), b" (short work space is changed)")
}

fn tell_made<W: Write>(to: &mut W, t: Tables<'_>, room: &[u8], count: usize) -> io::Result<()> {
    if 8192 < count {
        return to.write_all(b"more records than there may be");
    }
    let (list, past) = room.split_at((8 * count).min(room.len()));
    tell_records(to, count, list)?;
    tell_unless(to, all(past, 7), b" (past the list)")?;
    let mut own = list_room();
    let mut work = [7u32; 8193];
    tell_exact(
        to,
        &mut own,
        list,
        count,
        b" (another list in a room just as long)",
        |room| t.translate(room, &mut work),
    )?;
    tell_clear(to, &work)?;
    if 0 < count {
        tell_refused_in(to, t, 8 * count - 1, 24)?;
    }
    Ok(())
}

// A ground before 24 is told in a room of no bytes too.
fn tell_none<W: Write>(to: &mut W, g: Refusal, t: Tables<'_>, room: &[u8]) -> io::Result<()> {
    tell_unwritten(to, g, room)?;
    tell_refused_in(to, t, 0, g.number)
}

fn tell_tables<W: Write>(to: &mut W, t: Tables<'_>) -> io::Result<()> {
    let mut room = list_room();
    let mut work = [7u32; 8193];
    let r = t.translate(&mut room, &mut work);
    tell_clear(to, &work)?;
    match r {
        Err(g) => tell_none(to, g, t, &room)?,
        Ok(count) => tell_made(to, t, &room, count)?,
    }
    tell_narrow(to, t)
}

// The list of the text that a line says.
pub(crate) fn tell_list<W: Write>(to: &mut W, said: &[u8]) -> io::Result<()> {
    tell_said(to, said, tell_tables)
}
