// The evaluation of sound tables in their regions: 20, 23, 24, or the output bits.
ghost use Rattle.std.specs.Prelude.{◌≡◌, ℕ, ◌<◌, ◌≤◌, length, take, get_or};
ghost use Rattle.ground.specs.Regions.{zeros};
ghost use Rattle.loadlist.specs.Run.{assigns};
ghost use Rattle.cells.specs.Held.{held_runs};
ghost use Rattle.placing.specs.InTables.{Inside};
ghost use Rattle.assigning.specs.Rows.{rows_total, input_in};
ghost use Rattle.evaluating.specs.InTables.{evaluation_in};
ghost use Rattle.evaluating.specs.Sound.{TableSound};
ghost use Rattle.evaluating.specs.Outcome.{made};
ghost use Rattle.evaluating.specs.Answered.{Answers, Given};

use crate::settle::settle;
use assigning::{copy_bits, count_inputs};
use checking::refused;
use ground::Refusal;
use ordering::order_rows;
use placing::place;
use pools::all_trits;

// A byte for each input bit, none above 2.
fn fits(cells: &[u32], n: usize, ins: &[u8]) -> bool
    requires { (length cells.now ≡ 4608) × (n ≤ 512) × (rows_total input_in n cells.now ≤ 4096) }
    ensures { result ≡ assigns (rows_total input_in n cells.now) ins.now }
{
    let count = count_inputs(cells, n) as usize;
    if ins.len() != count {
        return false;
    }
    all_trits(ins)
}

// The output bits, worked out first and then given, as far as there is room: a refusal leaves the room as it was.
fn evaluate_placed(
    cells: &[u32],
    runs: &[u32],
    trits: &[u8],
    n: usize,
    order: &[u32],
    count: usize,
    ins: &[u8],
    outs: &mut [u8],
) -> Result<usize, Refusal>
    requires { TableSound cells.now (held_runs runs.now trits.now) n × (count ≤ length order.now) × ((i : ℕ) → i < count → get_or order.now i 0 < n) × (length ins.now ≡ rows_total input_in n cells.now) }
    ensures { Given (evaluation_in cells.now (held_runs runs.now trits.now) n (take count order.now) ins.now) outs.old result outs.new }
{
    let mut answer = [0u8; 4096];
    let k = settle(cells, runs, trits, n, order, count, ins, &mut answer);
    if outs.len() < k {
        return Err(refused(24));
    }
    copy_bits(&answer, 0, k, outs, 0);
    Ok(k)
}

// A ring is refused before the assignment is looked at.
pub(crate) fn evaluate_tables(
    cells: &[u32],
    runs: &[u32],
    trits: &[u8],
    n: usize,
    ins: &[u8],
    outs: &mut [u8],
    work: &mut [u32],
) -> Result<usize, Refusal>
    requires { TableSound cells.now (held_runs runs.now trits.now) n × Inside cells.now runs.now n × (work.old ≡ zeros 8192) }
    ensures { Answers cells.now runs.now trits.now n ins.now outs.old work.old (made result outs.new work.new) }
{
    let mut order = [0u32; 512];
    let placed = order_rows(cells, runs, n, &mut order, work);
    if placed.ring {
        return Err(refused(20));
    }
    if fits(cells, n, ins) {
        return evaluate_placed(cells, runs, trits, n, &order, placed.count, ins, outs);
    }
    Err(refused(23))
}
