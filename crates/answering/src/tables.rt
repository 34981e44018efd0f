// What is asked of a netlist that was read.
use crate::bench::eval_tables;
use crate::counts::tell_counts;
use crate::desk::Desk;
use crate::jobs::Job;
use crate::names::{tell_names, tell_pad, tell_pads};
use crate::tablewords::Tables;
use hexlines::tell_list;
use printing::print_text;
use std::io;
use std::io::Write;
use translating::translate;

// Six times the longest text that can be read again; a netlist of many long constants may still need more, and is refused 24.
fn print_tables<O: Write, E: Write>(desk: &mut Desk<'_, O, E>, t: Tables<'_>) -> io::Result<bool> {
    let mut room = [0u8; 393728];
    match print_text(t.rows, t.strings, t.trits, &mut room) {
        Ok(n) => match room.get(..n) {
            Some(text) => desk.give(|out| out.write_all(text)),
            None => Ok(false),
        },
        Err(g) => desk.refuse(g),
    }
}

// The list of a netlist: counted, as lines of hex, or as bytes.
fn give_list<O: Write, E: Write>(
    desk: &mut Desk<'_, O, E>,
    cells: usize,
    list: &[u8],
    records: usize,
) -> io::Result<bool> {
    match desk.job {
        Job::Check => tell_counts(desk, cells, list, records),
        Job::List => desk.give(|out| tell_list(out, list)),
        _ => desk.give(|out| out.write_all(list)),
    }
}

fn translate_tables<O: Write, E: Write>(
    desk: &mut Desk<'_, O, E>,
    t: Tables<'_>,
) -> io::Result<bool> {
    let mut room = [0u8; 65536];
    let mut work = [0u32; 8192];
    match translate(t.rows, t.strings, t.trits, &mut room, &mut work) {
        Ok(n) => match room.get(..n.saturating_mul(8)) {
            Some(list) => give_list(desk, t.word(2), list, n),
            None => Ok(false),
        },
        Err(g) => desk.refuse(g),
    }
}

pub(crate) fn answer_tables<O: Write, E: Write>(
    desk: &mut Desk<'_, O, E>,
    t: Tables<'_>,
    word: &[u8],
) -> io::Result<bool> {
    match desk.job {
        Job::Print => print_tables(desk, t),
        Job::Eval | Job::EvalBits => eval_tables(desk, t, word),
        Job::Names => tell_names(desk, t),
        Job::Pads => tell_pads(desk, t),
        Job::Pad => tell_pad(desk, t, word),
        _ => translate_tables(desk, t),
    }
}
