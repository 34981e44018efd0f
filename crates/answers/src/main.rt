// What `grackle` answers, run and compared. Each line of standard input says what is asked of which text, `J WORD|TEXT`: `worked` tells
// how a text is said, WORD is bits or a name, and J is `c` check, `p` print, `l` list, `o` load, `e` eval, `b` eval --bits, `r` run,
// `n` names, `s` pads, `d` pad. For each it writes the line, the answer, and whether it was refused; a refusal of another than `c` goes
// to standard error, as for a clerk.
#![tactic(auto)]

use answering::{Job, answer};
use filling::read_full;
use finding::split_once;
use std::io;
use std::io::Write;
use worked::put_text;

fn job_of(letter: u8) -> Job {
    match letter {
        b'p' => Job::Print,
        b'l' => Job::List,
        b'o' => Job::Load,
        b'e' => Job::Eval,
        b'b' => Job::EvalBits,
        b'r' => Job::Run,
        b'n' => Job::Names,
        b's' => Job::Pads,
        b'd' => Job::Pad,
        _ => Job::Check,
    }
}

// The word stands behind the letter and its blank.
fn tell_line<O: Write, E: Write>(out: &mut O, err: &mut E, line: &[u8]) -> io::Result<()> {
    let mut room = [0u8; 70000];
    out.write_all(line)?;
    out.write_all(b" ->\n")?;
    if let Some(([letter, _, word @ ..], said)) = split_once(line, b'|') {
        let n = put_text(said, &mut room);
        if !answer(out, err, job_of(*letter), b"text", &room[..n], word)? {
            out.write_all(b"(refused)\n")?;
        }
    }
    Ok(())
}

fn tell_all<O: Write, E: Write>(out: &mut O, err: &mut E, all: &[u8]) -> io::Result<()> {
    for line in all.split_inclusive(|b| *b == b'\n') {
        tell_line(out, err, line.strip_suffix(b"\n").unwrap_or(line))?;
    }
    Ok(())
}

fn main(rt: HostRuntime) -> io::Result<()> {
    let mut from = rt.stdin();
    let mut out = rt.stdout();
    let mut err = rt.stderr();
    let mut all = [0u8; 262144];
    let n = read_full(&mut from, &mut all)?;
    tell_all(&mut out, &mut err, &all[..n])
}
