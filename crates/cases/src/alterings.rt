// Tables that are nearly good. Each line says which places are altered, a bar, and a text (`worked` tells how a text is said):
// `r9412:3 s5:65 t131072:3 |TEXT` reads the text and then sets word 9412 of the rows to 3, byte 5 of the strings to 65 and byte 131072
// of the trits to 3. The answer is what the check of the tables answers. Every function on tables has to refuse what the check refuses
// (`refusals`), and rows one word short of good ones; printing and the lookup of I/O have to take what the check takes. The text is also
// read in work space one word short. Where an answer is another, that is told.
use crate::numbers::number;
use crate::refusals::tell_refusals;
use crate::rooms::{all, at_front};
use crate::tables::{
    Tables, lent_rows, lent_strings, lent_trits, lent_work, short_work, text_room,
};
use crate::told::tell_unless;
use finding::split_once;
use ground::Refusal;
use reader::read_text;
use std::io;
use std::io::Write;
use tellrefused::tell_refused;
use worked::put_text;

fn set<T: Copy>(items: &mut [T], at: usize, x: T) {
    if let Some(place) = items.get_mut(at) {
        *place = x;
    }
}

// One place altered, as `r9412:3` says. A number that is too large for its place is taken for 0.
fn alter_place(alteration: &[u8], rows: &mut [u32], strings: &mut [u8], trits: &mut [u8]) {
    let (place, value) = split_once(alteration, b':').unwrap_or((alteration, b""));
    let at = number(place);
    let x = number(value);
    let byte = u8::try_from(x).unwrap_or(0);
    match place.first() {
        Some(b'r') => set(rows, at, u32::try_from(x).unwrap_or(0)),
        Some(b's') => set(strings, at, byte),
        Some(b't') => set(trits, at, byte),
        _ => {}
    }
}

fn tell_bad<W: Write>(to: &mut W, g: Refusal, t: Tables<'_>) -> io::Result<()> {
    tell_refused(to, g)?;
    tell_refusals(to, g, t)
}

// Good tables are looked up: a row, or 18.
fn looks_up(r: Result<(usize, u32), Refusal>) -> bool {
    match r {
        Ok(_) => true,
        Err(g) => g.number == 18,
    }
}

fn tell_good<W: Write>(to: &mut W, t: Tables<'_>) -> io::Result<()> {
    let mut room = [7u8; 65536];
    to.write_all(b"good")?;
    tell_unless(to, t.print(&mut room).is_ok(), b" (not printed)")?;
    tell_unless(to, looks_up(t.lookup(b"a")), b" (not looked up)")?;
    // Rows one word short are refused 1 at 0.
    match t.rows.get(..26306) {
        Some(rows) => tell_refusals(to, at_front(1), Tables { rows, ..t }),
        None => Ok(()),
    }
}

fn tell_check<W: Write>(to: &mut W, t: Tables<'_>) -> io::Result<()> {
    match t.check() {
        Err(g) => tell_bad(to, g, t),
        Ok(()) => tell_good(to, t),
    }
}

// Reading in work space one word short is refused 1 at 0, and nothing is written.
fn tell_narrow<W: Write>(to: &mut W, text: &[u8]) -> io::Result<()> {
    let mut rows = lent_rows();
    let mut strings = lent_strings();
    let mut trits = lent_trits();
    let mut work = short_work();
    let r = read_text(text, &mut rows, &mut strings, &mut trits, &mut work);
    tell_unless(to, r == Err(at_front(1)), b" (read in short work space)")?;
    tell_unless(
        to,
        all(&rows, 7),
        b" (rows beside short work space are changed)",
    )?;
    tell_unless(to, all(&work, 7), b" (short work space is changed)")
}

fn tell_altered<W: Write>(to: &mut W, alterations: &[u8], text: &[u8]) -> io::Result<()> {
    let mut rows = lent_rows();
    let mut strings = lent_strings();
    let mut trits = lent_trits();
    let mut work = lent_work();
    let r = read_text(text, &mut rows, &mut strings, &mut trits, &mut work);
    tell_unless(to, r.is_ok(), b"not read: ")?;
    for alteration in alterations.split(|b| *b == b' ') {
        alter_place(alteration, &mut rows, &mut strings, &mut trits);
    }
    tell_check(
        to,
        Tables {
            rows: &rows,
            strings: &strings,
            trits: &trits,
        },
    )
}

pub(crate) fn tell_line<W: Write>(to: &mut W, line: &[u8]) -> io::Result<()> {
    let mut room = text_room();
    if let Some((alterations, said)) = split_once(line, b'|') {
        let n = put_text(said, &mut room);
        tell_altered(to, alterations, &room[..n])?;
        tell_narrow(to, &room[..n])?;
    }
    Ok(())
}
