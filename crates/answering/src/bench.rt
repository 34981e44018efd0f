// `eval` and `run`: output bits for input bits.
ghost use Rattle.std.specs.Prelude.{◌≤◌};

use crate::desk::Desk;
use crate::jobs::Job;
use crate::tablewords::Tables;
use evaluating::evaluate;
use running::run;
use std::io;
use std::io::Write;
use telling::bits::{put_bits, tell_bits};
use telling::names::tell_name;

// A load list's outputs have no names.
pub(crate) fn run_list<O: Write, E: Write>(
    desk: &mut Desk<'_, O, E>,
    list: &[u8],
    word: &[u8],
) -> io::Result<bool> {
    let mut ins = [0u8; 8193];
    let mut outs = [0u8; 8192];
    let mut work = [0u8; 8192];
    let n = put_bits(word, &mut ins);
    match run(list, &ins[..n], &mut outs, &mut work) {
        Ok(k) => desk.give(|out| tell_bits(out, &outs, 0, k)),
        Err(g) => desk.refuse(g),
    }
}

// The width of run i of so many behind a first one, and 0 past the last of them; none is wider than 256.
fn run_width(t: Tables<'_>, first: usize, count: usize, i: usize) -> usize
    ensures { result ≤ 256 }
{
    if i < count && first < 4096 && i < 4096 {
        let w = t.word(14021 + 3 * first + 3 * i);
        if w <= 256 {
            return w;
        }
    }
    0
}

// The sum of the widths of runs; no operand has more than 256 of them.
fn runs_width(t: Tables<'_>, first: usize, count: usize) -> usize {
    let mut sum: usize = 0;
    for i in 0..256 {
        sum += run_width(t, first, count, i);
    }
    sum
}

// How many output bits a cell's row gives: the width of an output's operand.
fn output_bits(t: Tables<'_>, row: usize) -> usize {
    if t.cell_word(row, 0) == 2 {
        return runs_width(t, t.cell_word(row, 5), t.cell_word(row, 6));
    }
    0
}

// The line of an output: its name and its bits. Other cells have none.
fn tell_row<O: Write>(
    out: &mut O,
    t: Tables<'_>,
    row: usize,
    bits: &[u8],
    at: usize,
    n: usize,
) -> io::Result<()> {
    if n == 0 {
        return Ok(());
    }
    tell_name(out, t.string(t.cell_word(row, 2), t.cell_word(row, 3))?)?;
    out.write_all(b" ")?;
    tell_bits(out, bits, at, n)
}

// The outputs by row, each behind the bits of those before; all together have 4,096 at most.
fn tell_outputs<O: Write>(out: &mut O, t: Tables<'_>, bits: &[u8]) -> io::Result<()> {
    let mut at: usize = 0;
    for row in 0..512 {
        let n = output_bits(t, row);
        tell_row(out, t, row, bits, at, n)?;
        at = at.saturating_add(n);
    }
    Ok(())
}

pub(crate) fn eval_tables<O: Write, E: Write>(
    desk: &mut Desk<'_, O, E>,
    t: Tables<'_>,
    word: &[u8],
) -> io::Result<bool> {
    let mut ins = [0u8; 8193];
    let mut outs = [0u8; 4096];
    let mut work = [0u32; 8192];
    let n = put_bits(word, &mut ins);
    let r = evaluate(t.rows, t.strings, t.trits, &ins[..n], &mut outs, &mut work);
    match (r, desk.job) {
        (Err(g), _) => desk.refuse(g),
        (Ok(k), Job::EvalBits) => desk.give(|out| tell_bits(out, &outs, 0, k)),
        (Ok(_), _) => desk.give(|out| tell_outputs(out, t, &outs)),
    }
}
