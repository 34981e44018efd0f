// Answering: what is asked of a file's bytes, a netlist or a load list, answered on standard output. It decides nothing itself: each
// answer is that of a proved function, and a refusal is told with its number, place and ground. It promises that every call ends. The
// functions of the core and the telling of their answers stand below it, the programs `grackle` and `answers` above.
#![tactic(auto)]

mod bench;
mod counts;
mod desk;
mod jobs;
mod names;
mod tables;
mod tablewords;

use crate::bench::run_list;
use crate::desk::Desk;
use crate::tables::answer_tables;
use crate::tablewords::Tables;
pub use jobs::Job;
use reader::read_text;
use std::io;
use std::io::Write;

// A netlist is read into tables first.
fn answer_text<O: Write, E: Write>(
    desk: &mut Desk<'_, O, E>,
    text: &[u8],
    word: &[u8],
) -> io::Result<bool> {
    let mut rows = [0u32; 26307];
    let mut strings = [0u8; 16384];
    let mut trits = [0u8; 393728];
    let mut work = [0u32; 132608];
    match read_text(text, &mut rows, &mut strings, &mut trits, &mut work) {
        Ok(()) => answer_tables(
            desk,
            Tables {
                rows: &rows,
                strings: &strings,
                trits: &trits,
            },
            word,
        ),
        Err(g) => desk.refuse(g),
    }
}

// Whether the bytes were taken and answered; the path is the name that a refusal tells, the word what is asked beside: bits or a name.
pub fn answer<'a, O: Write, E: Write>(
    out: &'a mut O,
    err: &'a mut E,
    job: Job,
    path: &'a [u8],
    bytes: &[u8],
    word: &[u8],
) -> io::Result<bool> {
    let mut desk = Desk {
        job,
        path,
        out,
        err,
    };
    match job {
        Job::Run => run_list(&mut desk, bytes, word),
        _ => answer_text(&mut desk, bytes, word),
    }
}

// The line of a file that cannot be read.
pub fn tell_unread<'a, O: Write, E: Write>(
    out: &'a mut O,
    err: &'a mut E,
    job: Job,
    path: &'a [u8],
) -> io::Result<bool> {
    let mut desk = Desk {
        job,
        path,
        out,
        err,
    };
    desk.refuse_unread()
}
