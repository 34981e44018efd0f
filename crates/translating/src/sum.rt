// The number of records of a translation, counted before any is written: 3 and the table's sum over the cells.
ghost use Rattle.std.specs.Prelude.{◌≡◌, List, ℕ, ◌+◌, ◌*◌, ◌<◌, ◌≤◌, length, drop};
ghost use Rattle.kinds.specs.Kinds.{kind_at};
ghost use Rattle.netlist.specs.Netlist.{operand_width};
ghost use Rattle.cells.specs.Held.{held_runs};
ghost use Rattle.assigning.specs.Rows.{rows_total};
ghost use Rattle.valuing.specs.Row.{cell_of};
ghost use Rattle.translating.specs.InTables.{row_sum};

use crate::operands::width_of;
use pools::word_of;

// The records of a cell, by its kind, its width and its first operand's width.
fn records_of(kind: u32, width: usize, first: usize) -> usize
    requires { (width < 4294967296) × (first ≤ 256) }
    ensures { (result ≡ (kind_at kind).records width first) × (result < 17179869188) }
{
    if kind == 1 {
        return width;
    }
    if kind == 2 {
        return first;
    }
    if kind == 3 {
        return 0;
    }
    if kind == 4 {
        return width;
    }
    if kind == 5 {
        return width;
    }
    if kind == 6 {
        return width;
    }
    if kind == 7 {
        return width;
    }
    if kind == 8 {
        return 2 + 4 * width;
    }
    if kind == 9 {
        return 6 * first;
    }
    if kind == 10 {
        return 2 * first;
    }
    if kind == 11 {
        return 5 * first;
    }
    if kind == 12 {
        return 5 * first;
    }
    0
}

// The records of a row.
fn row_records(cells: &[u32], runs: &[u32], trits: &[u8], row: usize) -> usize
    requires { (length cells.now ≡ 4608) × (row < 512) × (operand_width (cell_of (held_runs runs.now trits.now) (drop (row * 9) cells.now)).a ≤ 256) }
    ensures { (result ≡ row_sum (held_runs runs.now trits.now) (drop (row * 9) cells.now)) × (result < 17179869188) }
{
    let k = row * 9;
    let first = width_of(runs, trits, word_of(cells, k + 5), word_of(cells, k + 6));
    records_of(cells[k], word_of(cells, k + 1), first)
}

// The records of all rows, and the three constants.
pub(crate) fn sum_records(cells: &[u32], runs: &[u32], trits: &[u8], n: usize) -> usize
    requires { (length cells.now ≡ 4608) × (n ≤ 512) × ((row : ℕ) → row < n → operand_width (cell_of (held_runs runs.now trits.now) (drop (row * 9) cells.now)).a ≤ 256) }
    ensures { (result ≡ 3 + rows_total (row_sum (held_runs runs.now trits.now)) n cells.now) × (result < 17592186044416) }
{
    let mut sum: usize = 3;
    for i in 0..n {
        sum += row_records(cells, runs, trits, i);
    }
    sum
}
