// The tool for clerks and bench staff. One program with plain subcommands over the proved functions: it reads its arguments and a file,
// calls the function that answers, and tells the answer. It decides nothing itself. An answer goes to standard output; a refusal, a file
// that cannot be read and a wrong call go to standard error, one line each, with nothing on standard output. `check` tells each file's
// line on standard output.
#![tactic(auto)]

mod arguments;
mod checks;
mod commands;
mod files;
mod help;

use crate::arguments::{arg_count, is_option, put_arg};
use crate::checks::check_files;
use crate::commands::{Command, command_of};
use crate::files::answer_file;
use crate::help::{tell_help, tell_unknown, tell_usage};
use answering::Job;
use std::env::FillError;
use std::io;
use std::io::Write;
use std::rt::{Env, Files};

// The file that an argument names, and what is asked of it.
fn serve<R: Env + Files + Input, O: Write, E: Write>(
    rt: &R,
    out: &mut O,
    err: &mut E,
    job: Job,
    file: usize,
    word: &[u8],
) -> io::Result<()> {
    let mut path = [0u8; 4096];
    let n = put_arg(rt, file, &mut path);
    answer_file(rt, out, err, job, &path[..n], word)?;
    Ok(())
}

// The bits of an argument, or a name: an argument longer than the room is longer than every assignment and every name.
fn serve_with<R: Env + Files + Input, O: Write, E: Write>(
    rt: &R,
    out: &mut O,
    err: &mut E,
    job: Job,
    file: usize,
    word: usize,
) -> io::Result<()> {
    let mut room = [0u8; 8193];
    let n = match rt.arg(word, &mut room) {
        Ok(n) => n,
        Err(FillError::TooLong) => 8193,
        Err(FillError::NotPresent) => 0,
    };
    serve(rt, out, err, job, file, &room[..n])
}

// What is asked, by the number of arguments; `eval` takes `--bits` before the file or behind the bits.
fn serve_job<R: Env + Files + Input, O: Write, E: Write>(
    rt: &R,
    out: &mut O,
    err: &mut E,
    job: Job,
    count: usize,
) -> io::Result<()> {
    match (job, count) {
        (Job::Check, 3..) => check_files(rt, out, err, count),
        (Job::Eval | Job::Run | Job::Pad, 4) => serve_with(rt, out, err, job, 2, 3),
        (Job::Eval, 5) if is_option(rt, 2) => serve_with(rt, out, err, Job::EvalBits, 3, 4),
        (Job::Eval, 5) if is_option(rt, 4) => serve_with(rt, out, err, Job::EvalBits, 2, 3),
        (Job::Check | Job::Eval | Job::Run | Job::Pad, _) => tell_usage(err, job),
        (_, 3) => serve(rt, out, err, job, 2, b""),
        _ => tell_usage(err, job),
    }
}

fn main(rt: HostRuntime) -> io::Result<()> {
    let mut out = rt.stdout();
    let mut err = rt.stderr();
    let count = arg_count(&rt);
    if count < 2 {
        return tell_help(&mut out);
    }
    match command_of(&rt, 1) {
        Command::Help => tell_help(&mut out),
        Command::Unknown => tell_unknown(&mut err),
        Command::Of(job) => serve_job(&rt, &mut out, &mut err, job, count),
    }
}
