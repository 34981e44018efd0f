// The records of the constants, the inputs and the outputs, and the slots of the inputs.
ghost use Rattle.std.specs.Prelude.{◌≡◌, List, [], ◌∷◌, ℕ, ◌+◌, ◌*◌, ◌<◌, ◌≤◌, length, drop};
ghost use Rattle.std.proofs.lemmas.List.Edits.{sets};
ghost use Rattle.ground.specs.Lists.{up_from};
ghost use Rattle.netlist.specs.Netlist.{operand_width};
ghost use Rattle.loadlist.specs.Records.{rec};
ghost use Rattle.cells.specs.Held.{held_runs, held_bits};
ghost use Rattle.recording.specs.Making.{Puts};
ghost use Rattle.placing.specs.Placing.{output_from};
ghost use Rattle.assigning.specs.Rows.{width_in, input_in, rows_total, assigned_in};
ghost use Rattle.valuing.specs.Row.{cell_of};
ghost use Rattle.evaluating.specs.InTables.{outputs_in};
ghost use Rattle.translating.specs.Translation.{constants, input_records, output_records};
ghost use Rattle.translating.specs.Sound.{Roomy};

use assigning::input_width;
use loadlist::Record;
use loadlist::records::put_record;
use pools::word_of;
use slotgathering::gather_slots;

// Writes record k.
fn put(list: &mut [u8], k: usize, op: u8, first: u16, second: u16)
    requires { 8 * k + 8 ≤ length list.old }
    ensures { Puts list.old k (rec op first second ∷ []) list.new }
{
    put_record(list, k, Record { op, first, second });
}

// The constants 0, 1 and X in slots 0, 1, 2.
pub(crate) fn put_constants(list: &mut [u8])
    requires { 24 ≤ length list.old }
    ensures { Puts list.old 0 constants list.new }
{
    put(list, 0, 0, 0, 0);
    put(list, 1, 1, 0, 0);
    put(list, 2, 2, 0, 0);
}

// The input bits behind them, by their numbers.
pub(crate) fn put_inputs(list: &mut [u8], count: usize)
    requires { (count ≤ 4096) × (8 * (3 + count) ≤ length list.old) }
    ensures { Puts list.old 3 (input_records (up_from 0 count)) list.new }
{
    for i in 0..count {
        put(list, 3 + i, 3, i as u16, 0);
    }
}

// Slots numbered from `first` on.
fn number_slots(first: usize, size: usize, slots: &mut [u16], place: usize)
    requires { (first + size ≤ 65536) × (place + size ≤ length slots.old) }
    ensures { slots.new ≡ sets slots.old place (up_from first size) }
{
    for i in 0..size {
        slots[place + i] = (first + i) as u16;
    }
}

// The slots of the inputs among the first n rows, each where its row's bits begin: the first input bit has slot 3.
pub(crate) fn input_slots(cells: &[u32], n: usize, slots: &mut [u16])
    requires { (length cells.now ≡ 4608) × (n ≤ 512) × (rows_total width_in n cells.now ≤ length slots.old) × (rows_total input_in n cells.now ≤ 4096) }
    ensures { slots.new ≡ assigned_in n cells.now (up_from 3 (rows_total input_in n cells.now)) 0 0 slots.old }
{
    let mut start: usize = 0;
    let mut at: usize = 0;
    for i in 0..n {
        let w = word_of(cells, i * 9 + 1);
        let taken = input_width(cells[i * 9], cells[i * 9 + 1]) as usize;
        number_slots(3 + at, taken, slots, start);
        start += w;
        at += taken;
    }
}

// Output bits from number j on, from these slots.
fn put_outputs(list: &mut [u8], k: usize, slots: &[u16], j: usize)
    requires { (j + length slots.now ≤ 65536) × (8 * (k + length slots.now) ≤ length list.old) }
    ensures { Puts list.old k (output_records slots.now j) list.new }
{
    for i in 0..slots.len() {
        put(list, k + i, 8, slots[i], (j + i) as u16);
    }
}

// The output bits of a row, and how many they are; a row that is no output has none.
fn output_row(
    cells: &[u32],
    runs: &[u32],
    trits: &[u8],
    starts: &[u32],
    slots: &[u16],
    row: usize,
    list: &mut [u8],
    k: usize,
    j: usize,
) -> usize
    requires { (length cells.now ≡ 4608) × (row < 512) × (operand_width (cell_of (held_runs runs.now trits.now) (drop (row * 9) cells.now)).a ≤ 256) × (j ≤ 8192) × Roomy list.old k (output_records (output_from (held_bits starts.now slots.now) (cell_of (held_runs runs.now trits.now) (drop (row * 9) cells.now))) j) }
    ensures { (result ≡ length (output_from (held_bits starts.now slots.now) (cell_of (held_runs runs.now trits.now) (drop (row * 9) cells.now)))) × Puts list.old k (output_records (output_from (held_bits starts.now slots.now) (cell_of (held_runs runs.now trits.now) (drop (row * 9) cells.now))) j) list.new }
{
    let at = row * 9;
    if cells[at] == 2 {
        let mut a = [0u16; 256];
        let from = word_of(cells, at + 5);
        let n = gather_slots(
            runs,
            trits,
            starts,
            slots,
            from,
            word_of(cells, at + 6),
            &mut a,
        );
        put_outputs(list, k, &a[0..n], j);
        return n;
    }
    0
}

// The output bits of the first n rows, from record k on.
pub(crate) fn output_rows(
    cells: &[u32],
    runs: &[u32],
    trits: &[u8],
    starts: &[u32],
    slots: &[u16],
    n: usize,
    list: &mut [u8],
    k: usize,
)
    requires { (length cells.now ≡ 4608) × (n ≤ 512) × ((row : ℕ) → row < n → operand_width (cell_of (held_runs runs.now trits.now) (drop (row * 9) cells.now)).a ≤ 256) × Roomy list.old k (output_records (outputs_in n cells.now (held_runs runs.now trits.now) (held_bits starts.now slots.now)) 0) }
    ensures { Puts list.old k (output_records (outputs_in n cells.now (held_runs runs.now trits.now) (held_bits starts.now slots.now)) 0) list.new }
{
    let mut j: usize = 0;
    for i in 0..n {
        j += output_row(cells, runs, trits, starts, slots, i, list, k + j, j);
    }
}
