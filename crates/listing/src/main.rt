// The listing: a text from standard input, its canonical text and its load list to standard output, one record a line in hex, as document
// 01's example. On any refusal, of reading or of translation, it writes one line, `refused N at P`, and nothing else: nothing is written
// before all has succeeded. It reads the list through the record reader. Reading, printing and translating stand below it.
#![tactic(auto)]

ghost use Rattle.std.specs.Prelude.{◌≡◌, length};

use filling::read_full;
use ground::Refusal;
use hexlines::tell_list;
use printing::print_text;
use reader::read_text;
use std::io;
use std::io::Write;
use tellrefused::tell_refused;
use translating::translate;

fn tell<W: Write>(to: &mut W, g: Refusal) -> io::Result<()> {
    tell_refused(to, g)?;
    to.write_all(b"\n")
}

fn tell_both<W: Write>(to: &mut W, text: &[u8], list: &[u8]) -> io::Result<()> {
    to.write_all(text)?;
    tell_list(to, list)
}

fn translate_into<W: Write>(
    to: &mut W,
    rows: &[u32],
    strings: &[u8],
    trits: &[u8],
    text: &[u8],
    list: &mut [u8],
    work: &mut [u32],
) -> io::Result<()> {
    match translate(rows, strings, trits, list, work) {
        Err(g) => tell(to, g),
        Ok(n) => tell_both(to, text, &list[0..8 * n]),
    }
}

// No list has more than 8,192 records of 8 bytes.
fn translate_tables<W: Write>(
    to: &mut W,
    rows: &[u32],
    strings: &[u8],
    trits: &[u8],
    text: &[u8],
) -> io::Result<()> {
    let mut list = [0u8; 65536];
    let mut work = [0u32; 8192];
    translate_into(to, rows, strings, trits, text, &mut list, &mut work)
}

fn print_into<W: Write>(
    to: &mut W,
    rows: &[u32],
    strings: &[u8],
    trits: &[u8],
    room: &mut [u8],
) -> io::Result<()> {
    match print_text(rows, strings, trits, room) {
        Err(g) => tell(to, g),
        Ok(n) => translate_tables(to, rows, strings, trits, &room[0..n]),
    }
}

// Within the limits of Room no canonical text has 570,000 bytes: constant bits 262,158 and 131,072 in attributes; 4,096 runs of 14 bytes;
// 16,384 string bytes of 3; and below 70,000 for the rest of 512 metadata lines, 1,024 members, 64 I/O lines and 512 cell lines.
fn canonical_room() -> [u8; 600000]
    ensures { 600000 ≡ length result }
{
    [0; 600000]
}

fn print_tables<W: Write>(
    to: &mut W,
    rows: &[u32],
    strings: &[u8],
    trits: &[u8],
) -> io::Result<()> {
    let mut room = canonical_room();
    print_into(to, rows, strings, trits, &mut room)
}

fn list_text<W: Write>(to: &mut W, text: &[u8]) -> io::Result<()> {
    let mut rows = [0u32; 26307];
    let mut strings = [0u8; 16384];
    let mut trits = [0u8; 393728];
    let mut work = [0u32; 132608];
    match read_text(text, &mut rows, &mut strings, &mut trits, &mut work) {
        Err(g) => tell(to, g),
        Ok(()) => print_tables(to, &rows, &strings, &trits),
    }
}

// One byte more than a text may have, so that reading itself refuses a longer one.
fn main(rt: HostRuntime) -> io::Result<()> {
    let mut from = rt.stdin();
    let mut to = rt.stdout();
    let mut text = [0u8; 65537];
    let n = read_full(&mut from, &mut text)?;
    list_text(&mut to, &text[0..n])
}
