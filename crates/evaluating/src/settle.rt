// The bits of all cells, in one slice of values: inputs first, then row after row in the order of placing, then the outputs.
ghost use Rattle.std.specs.Prelude.{◌≡◌, List, ℕ, ◌<◌, ◌≤◌, length, take, get_or};
ghost use Rattle.ground.specs.Writes.{Put};
ghost use Rattle.cells.specs.Held.{held_runs, held_bits};
ghost use Rattle.assigning.specs.Rows.{rows_total, input_in};
ghost use Rattle.evaluating.specs.InTables.{settled_in, outputs_in, evaluation_in};
ghost use Rattle.evaluating.specs.Sound.{TableSound};
ghost use Rattle.valuing.specs.Row.{RowSound};

use assigning::{assign, start_rows};
use pools::word_of;
use valuing::{give_row, work_row};

// Rows worked out in an order, one after the other.
fn work_out(
    cells: &[u32],
    runs: &[u32],
    trits: &[u8],
    starts: &[u32],
    order: &[u32],
    count: usize,
    values: &mut [u8],
)
    requires { (count ≤ length order.now) × ((i : ℕ) → i < count → RowSound cells.now (held_runs runs.now trits.now) starts.now (get_or order.now i 0)) × (length values.old ≡ 4096) }
    ensures { values.new ≡ settled_in (take count order.now) cells.now (held_runs runs.now trits.now) starts.now values.old }
{
    for i in 0..count {
        let row = word_of(order, i);
        work_row(cells, runs, trits, starts, row, values);
    }
}

// The bits of the outputs among the first n rows.
fn give_outputs(
    cells: &[u32],
    runs: &[u32],
    trits: &[u8],
    starts: &[u32],
    values: &[u8],
    n: usize,
    answer: &mut [u8],
) -> usize
    requires { (length cells.now ≡ 4608) × (n ≤ 512) × (length (outputs_in n cells.now (held_runs runs.now trits.now) (held_bits starts.now values.now)) ≤ length answer.old) }
    ensures { Put answer.old 0 (outputs_in n cells.now (held_runs runs.now trits.now) (held_bits starts.now values.now)) result answer.new }
{
    let mut at: usize = 0;
    for i in 0..n {
        at = give_row(cells, runs, trits, starts, values, i, answer, at);
    }
    at
}

// The output bits of tables, where the order of placing is given.
pub(crate) fn settle(
    cells: &[u32],
    runs: &[u32],
    trits: &[u8],
    n: usize,
    order: &[u32],
    count: usize,
    ins: &[u8],
    answer: &mut [u8],
) -> usize
    requires { TableSound cells.now (held_runs runs.now trits.now) n × (count ≤ length order.now) × ((i : ℕ) → i < count → get_or order.now i 0 < n) × (length ins.now ≡ rows_total input_in n cells.now) × (length answer.old ≡ 4096) }
    ensures { Put answer.old 0 (evaluation_in cells.now (held_runs runs.now trits.now) n (take count order.now) ins.now) result answer.new }
{
    let mut starts = [0u32; 512];
    let mut values = [0u8; 4096];
    start_rows(cells, n, &mut starts);
    assign(cells, n, ins, &mut values);
    work_out(cells, runs, trits, &starts, order, count, &mut values);
    give_outputs(cells, runs, trits, &starts, &values, n, answer)
}
