// The translation of sound tables in their regions: 20, 21, 24, or the records.
ghost use Rattle.std.specs.Prelude.{◌≡◌, List, ◌++◌, ℕ, ◌+◌, ◌*◌, ◌<◌, ◌≤◌, length, take};
ghost use Rattle.ground.specs.Lists.{up_from};
ghost use Rattle.ground.specs.Regions.{zeros};
ghost use Rattle.cells.specs.Held.{held_runs};
ghost use Rattle.recording.specs.Making.{Puts};
ghost use Rattle.assigning.specs.Rows.{rows_total};
ghost use Rattle.translating.specs.Translation.{constants, input_records};
ghost use Rattle.translating.specs.InTables.{row_sum, translation_in};
ghost use Rattle.translating.specs.Answered.{Given, Answers};
ghost use Rattle.translating.specs.Sound.{Roomy, OrderSound, Sound};

use crate::records::{input_slots, output_rows, put_constants, put_inputs};
use crate::rows::make_rows;
use crate::sum::sum_records;
use assigning::{count_inputs, start_rows};
use checking::refused;
use ground::Refusal;
use ordering::order_rows;

// Constants and inputs.
fn put_front(list: &mut [u8], inputs: usize)
    requires { (inputs ≤ 4096) × (8 * (3 + inputs) ≤ length list.old) }
    ensures { Puts list.old 0 (constants ++ input_records (up_from 0 inputs)) list.new }
{
    put_constants(list);
    put_inputs(list, inputs);
}

// The whole list, where the order of placing is given.
fn put_list(
    cells: &[u32],
    runs: &[u32],
    trits: &[u8],
    n: usize,
    order: &[u32],
    count: usize,
    list: &mut [u8],
)
    requires { OrderSound cells.now (held_runs runs.now trits.now) n order.now count × Roomy list.old 0 (translation_in cells.now (held_runs runs.now trits.now) n (take count order.now)) }
    ensures { Puts list.old 0 (translation_in cells.now (held_runs runs.now trits.now) n (take count order.now)) list.new }
{
    let mut starts = [0u32; 512];
    let mut slots = [0u16; 4096];
    start_rows(cells, n, &mut starts);
    input_slots(cells, n, &mut slots);
    let inputs = count_inputs(cells, n) as usize;
    put_front(list, inputs);
    let k = make_rows(
        cells,
        runs,
        trits,
        &starts,
        order,
        count,
        3 + inputs,
        list,
        &mut slots,
    );
    output_rows(cells, runs, trits, &starts, &slots, n, list, k);
}

// The records are counted first: a refusal leaves the room as it was.
fn translate_placed(
    cells: &[u32],
    runs: &[u32],
    trits: &[u8],
    n: usize,
    order: &[u32],
    count: usize,
    room: &mut [u8],
) -> Result<usize, Refusal>
    requires { OrderSound cells.now (held_runs runs.now trits.now) n order.now count }
    ensures { Given (3 + rows_total (row_sum (held_runs runs.now trits.now)) n cells.now) (translation_in cells.now (held_runs runs.now trits.now) n (take count order.now)) room.old result room.new }
{
    let sum = sum_records(cells, runs, trits, n);
    if 8192 < sum {
        return Err(refused(21));
    }
    if room.len() < 8 * sum {
        return Err(refused(24));
    }
    put_list(cells, runs, trits, n, order, count, room);
    Ok(sum)
}

// A ring is refused before the records are counted.
pub(crate) fn translate_tables(
    cells: &[u32],
    runs: &[u32],
    trits: &[u8],
    n: usize,
    room: &mut [u8],
    work: &mut [u32],
) -> Result<usize, Refusal>
    requires { Sound cells.now runs.now trits.now n × (work.old ≡ zeros 8192) }
    ensures { Answers cells.now runs.now trits.now n room.old work.old result room.new work.new }
{
    let mut order = [0u32; 512];
    let placed = order_rows(cells, runs, n, &mut order, work);
    if placed.ring {
        return Err(refused(20));
    }
    translate_placed(cells, runs, trits, n, &order, placed.count, room)
}
