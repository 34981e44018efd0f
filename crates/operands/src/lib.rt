// Operands: the runs of a cell's operand as they stand in the canonical text, put into lent room. The numbers and widths of all cells
// are lent, a word a row, so that a piece looks its cell up once. Writing stands below it, printing above.
#![tactic(auto)]

ghost use Rattle.std.specs.Prelude.{◌≡◌, Bool, true, ◌&&◌, List, ℕ, ◌-◌, ◌<◌, ◌≤◌, eqb, length, get_or};
ghost use Rattle.ground.specs.Lists.{every};
ghost use Rattle.ground.specs.Regions.{part};
ghost use Rattle.netlist.specs.Netlist.{piece};
ghost use Rattle.netlist.specs.Rules.{is_trit};
ghost use Rattle.netlist.specs.View.{run_in};
ghost use Rattle.writing.specs.Parts.{up_to};
ghost use Rattle.writing.specs.Stands.{Wrote};
ghost use Rattle.operands.specs.Operands.{offset, width, run, runs, more_runs, operand, holding, held_runs};

use decimals::put_number;
use quotes::put_trits;
use words::wide;
use writing::room::{end_of, put};

// The word at a place, 0 past the end.
fn word_at(words: &[u32], i: u32) -> u32
    ensures { result ≡ get_or words.now i 0 }
{
    let k = wide(i);
    if k < words.len() {
        return words[k];
    }
    0
}

// Whether w bits from o on are all of a cell.
fn is_whole(o: u32, w: u32, all: u32) -> bool
    ensures { result ≡ (eqb o 0 && eqb w all) }
{
    if o == 0 {
        return w == all;
    }
    false
}

fn put_offset(room: &mut [u8], n: usize, whole: bool, o: u32) -> usize
    ensures { Wrote room.old n (offset whole o) room.new result }
{
    if whole {
        return n;
    }
    let m = put(room, n, 43);
    put_number(room, m, o)
}

fn put_width(room: &mut [u8], n: usize, w: u32) -> usize
    ensures { Wrote room.old n (width w) room.new result }
{
    if w == 1 {
        return n;
    }
    let m = put(room, n, 58);
    put_number(room, m, w)
}

// The bits o+w-1 down to o of the cell in a row.
fn put_piece(
    room: &mut [u8],
    n: usize,
    numbers: &[u32],
    widths: &[u32],
    row: u32,
    o: u32,
    w: u32,
) -> usize
    ensures { Wrote room.old n (run numbers.now widths.now (piece row o w)) room.new result }
{
    let number = word_at(numbers, row);
    let whole = is_whole(o, w, word_at(widths, row));
    let m = put(room, n, 37);
    let m = put_number(room, m, number);
    let m = put_offset(room, m, whole, o);
    put_width(room, m, w)
}

// The run in a row of the table of runs.
fn put_run(
    room: &mut [u8],
    n: usize,
    numbers: &[u32],
    widths: &[u32],
    row: &[u32],
    trits: &[u8],
) -> usize
    requires { (length row.now ≡ 3) × (every is_trit trits.now ≡ true) }
    ensures { Wrote room.old n (run numbers.now widths.now (run_in (holding trits.now) row.now)) room.new result }
{
    let cell = row[0];
    if cell == 0 {
        return put_trits(room, n, trits, row[1], row[2]);
    }
    put_piece(room, n, numbers, widths, cell - 1, row[1], row[2])
}

// The runs from i up to `end`, each behind a space.
fn put_more_runs(
    room: &mut [u8],
    n: usize,
    numbers: &[u32],
    widths: &[u32],
    rows: &[u32],
    trits: &[u8],
    i: usize,
    end: usize,
) -> usize
    requires { (length rows.now ≡ 12288) × (every is_trit trits.now ≡ true) × (end ≤ 4096) }
    ensures { Wrote room.old n (more_runs numbers.now widths.now (up_to i end (held_runs rows.now trits.now))) room.new result }
{
    let mut n = n;
    for i in i..end {
        let k = i * 3;
        let m = put(room, n, 32);
        n = put_run(room, m, numbers, widths, &rows[k..k + 3], trits);
    }
    n
}

// The runs from `start` up to `end`, with single spaces between them.
fn put_runs(
    room: &mut [u8],
    n: usize,
    numbers: &[u32],
    widths: &[u32],
    rows: &[u32],
    trits: &[u8],
    start: usize,
    end: usize,
) -> usize
    requires { (length rows.now ≡ 12288) × (every is_trit trits.now ≡ true) × (end ≤ 4096) }
    ensures { Wrote room.old n (runs numbers.now widths.now (up_to start end (held_runs rows.now trits.now))) room.new result }
{
    if start < end {
        let k = start * 3;
        let m = put_run(room, n, numbers, widths, &rows[k..k + 3], trits);
        return put_more_runs(room, m, numbers, widths, rows, trits, start + 1, end);
    }
    n
}

// An operand: one run stands bare, more in `[ ]`.
pub fn put_operand(
    room: &mut [u8],
    n: usize,
    numbers: &[u32],
    widths: &[u32],
    rows: &[u32],
    trits: &[u8],
    from: usize,
    size: u32,
) -> usize
    requires { (length rows.now ≡ 12288) × (every is_trit trits.now ≡ true) × (from < 17179869184) }
    ensures { Wrote room.old n (operand numbers.now widths.now (part from size (held_runs rows.now trits.now))) room.new result }
{
    let end = end_of(from, size, 4096);
    if from + 1 == end {
        return put_runs(room, n, numbers, widths, rows, trits, from, end);
    }
    let m = put(room, n, 91);
    let m = put_runs(room, m, numbers, widths, rows, trits, from, end);
    put(room, m, 93)
}
