// Worked cases of every layer, run. Standard input has one list behind the other. A line that begins with `@`, such as `@ readings`,
// names the list that the lines behind it belong to, by the first letter of its name, and is written as it is; no case begins so. Each
// other line is a case: it is written, with the answer of its list behind it. The expected answers stand in `stdout`, derived from the
// documents. The module of each list tells how its lines read and what is answered.
#![tactic(auto)]

mod alterings;
mod bits;
mod evaluations;
mod forms;
mod loads;
mod namings;
mod numbers;
mod printings;
mod readings;
mod refusals;
mod rooms;
mod runs;
mod tables;
mod told;
mod translations;

ghost use Rattle.std.specs.Prelude.{◌≡◌, length};

use filling::read_full;
use std::io;
use std::io::Write;
use told::tell_unless;

// What the list whose name begins with the letter answers to a line.
fn tell_answer<W: Write>(to: &mut W, letter: u8, line: &[u8]) -> io::Result<()> {
    match letter {
        b'f' => forms::tell_line(to, line),
        b'r' => readings::tell_line(to, line),
        b'p' => printings::tell_line(to, line),
        b'a' => alterings::tell_line(to, line),
        b'n' => namings::tell_line(to, line),
        b'e' => evaluations::tell_line(to, line),
        b't' => translations::tell_line(to, line),
        _ => tell_unless(to, false, b"no list has this line"),
    }
}

// A line told; the letter of the list that the next line belongs to.
fn tell_line<W: Write>(to: &mut W, letter: u8, line: &[u8]) -> io::Result<u8> {
    to.write_all(line)?;
    if line.starts_with(b"@") {
        to.write_all(b"\n")?;
        return Ok(line.get(2).copied().unwrap_or(0));
    }
    to.write_all(b" -> ")?;
    tell_answer(to, letter, line)?;
    to.write_all(b"\n")?;
    Ok(letter)
}

fn tell_all<W: Write>(to: &mut W, all: &[u8]) -> io::Result<()> {
    let mut letter = 0;
    for line in all.split_inclusive(|b| *b == b'\n') {
        letter = tell_line(to, letter, line.strip_suffix(b"\n").unwrap_or(line))?;
    }
    Ok(())
}

// All lists together have to be shorter than this; of longer ones the end would be missing in the output.
fn room_for_all() -> [u8; 1048576]
    ensures { 1048576 ≡ length result }
{
    [0; 1048576]
}

fn main(rt: HostRuntime) -> io::Result<()> {
    let mut from = rt.stdin();
    let mut to = rt.stdout();
    let mut all = room_for_all();
    let n = read_full(&mut from, &mut all)?;
    tell_all(&mut to, &all[..n])
}
