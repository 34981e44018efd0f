// `check`: a line for each file.
use crate::arguments::put_arg;
use crate::files::answer_file;
use answering::Job;
use std::io;
use std::io::Write;
use std::rt::{Env, Files};

fn check_file<R: Env + Files + Input, O: Write, E: Write>(
    rt: &R,
    out: &mut O,
    err: &mut E,
    i: usize,
) -> io::Result<bool> {
    let mut path = [0u8; 4096];
    let n = put_arg(rt, i, &mut path);
    answer_file(rt, out, err, Job::Check, &path[..n], b"")
}

// The last line tells whoever looks at standard error alone that a file is not good.
fn tell_bad<E: Write>(err: &mut E, bad: usize) -> io::Result<()> {
    if bad == 0 {
        return Ok(());
    }
    writeln!(err, "grackle: files that are not good: {bad}")
}

// The files that the arguments from the second on name.
pub(crate) fn check_files<R: Env + Files + Input, O: Write, E: Write>(
    rt: &R,
    out: &mut O,
    err: &mut E,
    count: usize,
) -> io::Result<()> {
    let mut bad: usize = 0;
    for i in 2..count {
        if !check_file(rt, out, err, i)? {
            bad = bad.saturating_add(1).min(1000000);
        }
    }
    tell_bad(err, bad)
}
