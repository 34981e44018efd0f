// Valuing: the value of a cell's row of tables, worked out from the values so far and put where the row's bits begin; and the bits of an
// output's row. The values of cells and the places of bits stand below it, evaluating above.
#![tactic(auto)]

ghost use Rattle.std.specs.Prelude.{◌≡◌, List, ℕ, ◌+◌, ◌*◌, ◌<◌, ◌≤◌, length, take, drop, get_or};
ghost use Rattle.std.proofs.lemmas.List.Edits.{sets};
ghost use Rattle.ground.specs.Writes.{Put};
ghost use Rattle.cells.specs.Held.{held_runs, held_bits};
ghost use Rattle.cells.specs.Operands.{bits_from};
ghost use Rattle.cells.specs.Values.{kind_value};
ghost use Rattle.placing.specs.Placing.{output_from};
ghost use Rattle.assigning.specs.Rows.{width_in};
ghost use Rattle.valuing.specs.Row.{cell_of, row_value, Placed, RowSound, Valued};

use cellvalues::value::put_value;
use gathering::bits::gather;
use pools::word_of;

// A word of a cell's row.
fn word_in(cells: &[u32], row: usize, i: usize) -> usize
    requires { (length cells.now ≡ 4608) × (row < 512) × (i < 9) }
    ensures { (result ≡ get_or (drop (row * 9) cells.now) i 0) × (result < 4294967296) }
{
    cells[row * 9 + i] as usize
}

// Where the runs of the second operand begin.
fn second_run(cells: &[u32], row: usize) -> usize
    requires { (length cells.now ≡ 4608) × (row < 512) }
    ensures { (result ≡ get_or (drop (row * 9) cells.now) 5 0 + get_or (drop (row * 9) cells.now) 6 0) × (result < 8589934592) }
{
    word_in(cells, row, 5) + word_in(cells, row, 6)
}

// Where the runs of the third operand begin.
fn third_run(cells: &[u32], row: usize) -> usize
    requires { (length cells.now ≡ 4608) × (row < 512) }
    ensures { result ≡ get_or (drop (row * 9) cells.now) 5 0 + get_or (drop (row * 9) cells.now) 6 0 + get_or (drop (row * 9) cells.now) 7 0 }
{
    second_run(cells, row) + word_in(cells, row, 7)
}

// A value, put at its place among the values.
fn put_at(kind: u32, a: &[u8], b: &[u8], c: &[u8], values: &mut [u8], start: usize, end: usize)
    requires { (start ≤ end) × (end ≤ length values.old) }
    ensures { Placed values.old start end (kind_value kind a.now b.now c.now) values.new }
{
    put_value(kind, a, b, c, &mut values[start..end]);
}

// A value, put where the row's bits begin.
fn put_row(
    cells: &[u32],
    starts: &[u32],
    row: usize,
    a: &[u8],
    b: &[u8],
    c: &[u8],
    values: &mut [u8],
)
    requires { (length cells.now ≡ 4608) × (length starts.now ≡ 512) × (row < 512) × (get_or starts.now row 0 + width_in (drop (row * 9) cells.now) ≤ length values.old) }
    ensures { Valued cells.now starts.now row values.old (kind_value (get_or (drop (row * 9) cells.now) 0 0) a.now b.now c.now) values.new }
{
    let start = word_of(starts, row);
    let end = start + word_in(cells, row, 1);
    put_at(cells[row * 9], a, b, c, values, start, end);
}

// The third operand gathered, and the value put.
fn work_third(
    cells: &[u32],
    runs: &[u32],
    trits: &[u8],
    starts: &[u32],
    row: usize,
    a: &[u8],
    b: &[u8],
    values: &mut [u8],
)
    requires { RowSound cells.now (held_runs runs.now trits.now) starts.now row × (length values.old ≡ 4096) }
    ensures { Valued cells.now starts.now row values.old (kind_value (get_or (drop (row * 9) cells.now) 0 0) a.now b.now (bits_from (held_bits starts.now values.old) (cell_of (held_runs runs.now trits.now) (drop (row * 9) cells.now)).c)) values.new }
{
    let mut c = [0u8; 256];
    let from = third_run(cells, row);
    let size = word_in(cells, row, 8);
    let n = gather(runs, trits, starts, values, from, size, &mut c);
    put_row(cells, starts, row, a, b, &c[0..n], values);
}

// The second operand gathered, then the third.
fn work_second(
    cells: &[u32],
    runs: &[u32],
    trits: &[u8],
    starts: &[u32],
    row: usize,
    a: &[u8],
    values: &mut [u8],
)
    requires { RowSound cells.now (held_runs runs.now trits.now) starts.now row × (length values.old ≡ 4096) }
    ensures { Valued cells.now starts.now row values.old (kind_value (get_or (drop (row * 9) cells.now) 0 0) a.now (bits_from (held_bits starts.now values.old) (cell_of (held_runs runs.now trits.now) (drop (row * 9) cells.now)).b) (bits_from (held_bits starts.now values.old) (cell_of (held_runs runs.now trits.now) (drop (row * 9) cells.now)).c)) values.new }
{
    let mut b = [0u8; 256];
    let from = second_run(cells, row);
    let size = word_in(cells, row, 7);
    let n = gather(runs, trits, starts, values, from, size, &mut b);
    work_third(cells, runs, trits, starts, row, a, &b[0..n], values);
}

// The value of a row, put where its bits begin.
pub fn work_row(
    cells: &[u32],
    runs: &[u32],
    trits: &[u8],
    starts: &[u32],
    row: usize,
    values: &mut [u8],
)
    requires { RowSound cells.now (held_runs runs.now trits.now) starts.now row × (length values.old ≡ 4096) }
    ensures { values.new ≡ sets values.old (get_or starts.now row 0) (row_value cells.now (held_runs runs.now trits.now) starts.now values.old row) }
{
    let mut a = [0u8; 256];
    let from = word_in(cells, row, 5);
    let size = word_in(cells, row, 6);
    let n = gather(runs, trits, starts, values, from, size, &mut a);
    work_second(cells, runs, trits, starts, row, &a[0..n], values);
}

// The bits of an output's operand, put behind those given so far.
fn give_bits(
    cells: &[u32],
    runs: &[u32],
    trits: &[u8],
    starts: &[u32],
    values: &[u8],
    row: usize,
    answer: &mut [u8],
    at: usize,
) -> usize
    requires { (length cells.now ≡ 4608) × (row < 512) × (at + length (bits_from (held_bits starts.now values.now) (cell_of (held_runs runs.now trits.now) (drop (row * 9) cells.now)).a) ≤ length answer.old) }
    ensures { Put answer.old at (bits_from (held_bits starts.now values.now) (cell_of (held_runs runs.now trits.now) (drop (row * 9) cells.now)).a) result answer.new }
{
    let from = word_in(cells, row, 5);
    let size = word_in(cells, row, 6);
    let end = answer.len();
    let n = gather(
        runs,
        trits,
        starts,
        values,
        from,
        size,
        &mut answer[at..end],
    );
    at + n
}

// The bits of a row, where it is an output, put behind those given so far.
pub fn give_row(
    cells: &[u32],
    runs: &[u32],
    trits: &[u8],
    starts: &[u32],
    values: &[u8],
    row: usize,
    answer: &mut [u8],
    at: usize,
) -> usize
    requires { (length cells.now ≡ 4608) × (row < 512) × (at + length (output_from (held_bits starts.now values.now) (cell_of (held_runs runs.now trits.now) (drop (row * 9) cells.now))) ≤ length answer.old) }
    ensures { Put answer.old at (output_from (held_bits starts.now values.now) (cell_of (held_runs runs.now trits.now) (drop (row * 9) cells.now))) result answer.new }
{
    let kind = word_in(cells, row, 0);
    if kind == 2 {
        return give_bits(cells, runs, trits, starts, values, row, answer, at);
    }
    at
}
