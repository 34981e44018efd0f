// The worked texts of reading. Each line says one text (`worked` tells how). The answer is what reading answers: a refusal with its place,
// or the numbers of rows and a sum over each table, every word times its place counted from 1, modulo 4,294,967,291. The slices are lent
// one word or byte too long and hold 7 everywhere; what a call leaves that it must not leave is told.
use crate::rooms::all;
use crate::tables::{lent_rows, lent_strings, lent_trits, lent_work, text_room};
use crate::told::{sum, tell_unless};
use ground::Refusal;
use reader::read_text;
use std::io;
use std::io::Write;
use tellrefused::tell_refused;
use worked::put_text;

fn tell_tables<W: Write>(
    to: &mut W,
    rows: &[u32; 26308],
    strings: &[u8; 16385],
    trits: &[u8; 393729],
) -> io::Result<()> {
    write!(
        to,
        "{} metadata, {} pads, {} cells; ",
        rows[0], rows[1], rows[2]
    )?;
    write!(to, "rows {}", sum(&rows[..26307]))?;
    write!(to, ", strings {}", sum(&strings[..16384]))?;
    write!(to, ", trits {}", sum(&trits[..393728]))
}

fn tell_refusal<W: Write>(
    to: &mut W,
    g: Refusal,
    rows: &[u32; 26308],
    strings: &[u8; 16385],
    trits: &[u8; 393729],
) -> io::Result<()> {
    tell_refused(to, g)?;
    tell_unless(to, all(&rows[..26307], 0), b" (rows not cleared)")?;
    tell_unless(to, all(&strings[..16384], 0), b" (strings not cleared)")?;
    tell_unless(to, all(&trits[..393728], 0), b" (trits not cleared)")
}

fn tell_past<W: Write>(
    to: &mut W,
    rows: &[u32; 26308],
    strings: &[u8; 16385],
    trits: &[u8; 393729],
    work: &[u32; 132609],
) -> io::Result<()> {
    tell_unless(to, all(&work[..132608], 0), b" (work space not cleared)")?;
    tell_unless(to, rows[26307] == 7, b" (past the rows)")?;
    tell_unless(to, strings[16384] == 7, b" (past the strings)")?;
    tell_unless(to, trits[393728] == 7, b" (past the trits)")?;
    tell_unless(to, work[132608] == 7, b" (past the work space)")
}

fn tell_text<W: Write>(to: &mut W, text: &[u8]) -> io::Result<()> {
    let mut rows = lent_rows();
    let mut strings = lent_strings();
    let mut trits = lent_trits();
    let mut work = lent_work();
    match read_text(text, &mut rows, &mut strings, &mut trits, &mut work) {
        Err(g) => tell_refusal(to, g, &rows, &strings, &trits)?,
        Ok(()) => tell_tables(to, &rows, &strings, &trits)?,
    }
    tell_past(to, &rows, &strings, &trits, &work)
}

pub(crate) fn tell_line<W: Write>(to: &mut W, line: &[u8]) -> io::Result<()> {
    let mut room = text_room();
    let n = put_text(line, &mut room);
    tell_text(to, &room[..n])
}
