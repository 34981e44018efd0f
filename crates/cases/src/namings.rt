// The full names of idents. Each line says a row and a text, `ROW |TEXT` (`worked` tells how a text is said). The answer is the full name
// of that row, bytes outside 20-7E as `\xHH` and a backslash as `\\`; or what reading or naming refuses. Rooms are lent full of 7. It is
// told where a byte past a name or a refused room is changed, and where a room just as long as the name or one byte short is not answered
// as it must be.
use crate::numbers::number;
use crate::rooms::{all, tell_exact, tell_short};
use crate::tables::{Tables, tell_said};
use crate::told::{tell_hex, tell_unless, tell_unwritten};
use finding::{find, split_once};
use std::io;
use std::io::Write;

fn tell_bytes<W: Write>(to: &mut W, name: &[u8]) -> io::Result<()> {
    for b in name {
        match *b {
            b'\\' => to.write_all(b"\\\\")?,
            0..=31 | 127..=255 => {
                to.write_all(b"\\x")?;
                tell_hex(to, *b)?;
            }
            _ => to.write_all(&[*b])?,
        }
    }
    Ok(())
}

fn tell_name<W: Write>(
    to: &mut W,
    t: Tables<'_>,
    row: usize,
    name: &[u8],
    past: &[u8],
) -> io::Result<()> {
    let n = name.len();
    tell_bytes(to, name)?;
    tell_unless(to, all(past, 7), b" (past the name)")?;
    tell_exact(
        to,
        &mut [7; 24000],
        name,
        n,
        b" (another name in a room just as long)",
        |room| t.name(row, room),
    )?;
    tell_short(to, &mut [7; 24000], n.saturating_sub(1), 24, |room| {
        t.name(row, room)
    })
}

// The room is longer than every name: strings have 16,384 bytes in all, and each of 512 rows an index of 11 and a `/` at most.
fn tell_tables<W: Write>(to: &mut W, row: usize, t: Tables<'_>) -> io::Result<()> {
    let mut room = [7u8; 24000];
    match t.name(row, &mut room) {
        Err(g) => tell_unwritten(to, g, &room),
        Ok(n) => {
            let (name, past) = room.split_at(n.min(24000));
            tell_name(to, t, row, name, past)
        }
    }
}

pub(crate) fn tell_line<W: Write>(to: &mut W, line: &[u8]) -> io::Result<()> {
    let row = number(&line[..find(line, 0, b' ')]);
    match split_once(line, b'|') {
        Some((_, said)) => tell_said(to, said, |to, t| tell_tables(to, row, t)),
        None => Ok(()),
    }
}
