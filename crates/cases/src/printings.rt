// The canonical texts of worked texts. Each line says one text (`worked` tells how). The answer is its canonical text, LF as `\n` and a
// backslash as `\\`; of one longer than 2,000 bytes the length and a sum, every byte times its place counted from 1, modulo
// 4,294,967,291. Rooms are lent full of 7. It is told where a byte past a text is changed, where a room just as long as the text or one
// byte short is not answered as it must be, and where the text, read again, gives other tables.
ghost use Rattle.std.specs.Prelude.{◌≡◌, length};

use crate::rooms::{all, tell_exact, tell_short};
use crate::tables::{Tables, exact_rows, exact_strings, exact_trits, lent_work, tell_said};
use crate::told::{tell_many, tell_unless};
use reader::read_text;
use std::io;
use std::io::Write;
use tellrefused::tell_refused;

fn tell_bytes<W: Write>(to: &mut W, text: &[u8]) -> io::Result<()> {
    for b in text {
        match *b {
            b'\n' => to.write_all(b"\\n")?,
            b'\\' => to.write_all(b"\\\\")?,
            _ => to.write_all(&[*b])?,
        }
    }
    Ok(())
}

fn tell_canonical<W: Write>(to: &mut W, text: &[u8]) -> io::Result<()> {
    if text.len() <= 2000 {
        return tell_bytes(to, text);
    }
    tell_many(to, text.len(), b" bytes", text)
}

// The room is longer than every canonical text: within the limits of Room none has 570,000 bytes.
fn canonical_room() -> [u8; 600000]
    ensures { 600000 ≡ length result }
{
    [7; 600000]
}

// A canonical text that is no longer than a text may be gives the same tables.
fn tell_again<W: Write>(to: &mut W, text: &[u8], t: Tables<'_>) -> io::Result<()> {
    if 65536 < text.len() {
        return Ok(());
    }
    let mut rows = exact_rows();
    let mut strings = exact_strings();
    let mut trits = exact_trits();
    let mut work = lent_work();
    let r = read_text(text, &mut rows, &mut strings, &mut trits, &mut work);
    tell_unless(to, r.is_ok(), b" (refused when read again)")?;
    tell_unless(
        to,
        t.rows.starts_with(&rows),
        b" (other rows when read again)",
    )?;
    tell_unless(
        to,
        t.strings.starts_with(&strings),
        b" (other strings when read again)",
    )?;
    tell_unless(
        to,
        t.trits.starts_with(&trits),
        b" (other trits when read again)",
    )
}

fn tell_printed<W: Write>(to: &mut W, t: Tables<'_>, text: &[u8], past: &[u8]) -> io::Result<()> {
    let n = text.len();
    tell_canonical(to, text)?;
    tell_unless(to, all(past, 7), b" (past the text)")?;
    tell_exact(
        to,
        &mut canonical_room(),
        text,
        n,
        b" (another text in a room just as long)",
        |room| t.print(room),
    )?;
    tell_short(
        to,
        &mut canonical_room(),
        n.saturating_sub(1),
        24,
        |room| t.print(room),
    )?;
    tell_again(to, text, t)
}

fn tell_tables<W: Write>(to: &mut W, t: Tables<'_>) -> io::Result<()> {
    let mut room = canonical_room();
    match t.print(&mut room) {
        Err(g) => {
            to.write_all(b"not printed: ")?;
            tell_refused(to, g)
        }
        Ok(n) => {
            let (text, past) = room.split_at(n.min(600000));
            tell_printed(to, t, text, past)
        }
    }
}

pub(crate) fn tell_line<W: Write>(to: &mut W, line: &[u8]) -> io::Result<()> {
    tell_said(to, line, tell_tables)
}
