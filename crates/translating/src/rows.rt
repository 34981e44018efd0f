// The records of the cells in their order, with the slots of all bits in one slice.
ghost use Rattle.std.specs.Prelude.{◌≡◌, List, ℕ, ◌+◌, ◌*◌, ◌<◌, ◌≤◌, length, take, drop, get_or};
ghost use Rattle.std.proofs.lemmas.List.Edits.{sets};
ghost use Rattle.cells.specs.Held.{held_runs, held_bits};
ghost use Rattle.cells.specs.Records.{Made, kind_made};
ghost use Rattle.translating.specs.InTables.{row_made, records_in, slots_in};
ghost use Rattle.translating.specs.Sound.{RowSound, Roomy, Listed};

use pools::word_of;
use recording::make;
use slotgathering::gather_slots;

// A cell's records, and the slots of its bits put where its bits begin.
fn make_cell(
    kind: u32,
    k: usize,
    a: &[u16],
    b: &[u16],
    c: &[u16],
    list: &mut [u8],
    slots: &mut [u16],
    start: usize,
) -> usize
    requires { Roomy list.old k (kind_made kind k a.now b.now c.now).records × (start + length (kind_made kind k a.now b.now c.now).outs ≤ length slots.old) }
    ensures { Listed list.old k (kind_made kind k a.now b.now c.now).records result list.new × (slots.new ≡ sets slots.old start (kind_made kind k a.now b.now c.now).outs) }
{
    let end = slots.len();
    k + make(kind, k, a, b, c, list, &mut slots[start..end])
}

// The row's records from record k on; which record is the next.
fn make_row(
    cells: &[u32],
    runs: &[u32],
    trits: &[u8],
    starts: &[u32],
    row: usize,
    k: usize,
    list: &mut [u8],
    slots: &mut [u16],
) -> usize
    requires { RowSound cells.now (held_runs runs.now trits.now) starts.now row × Roomy list.old k (row_made cells.now (held_runs runs.now trits.now) starts.now slots.old row k).records × (length slots.old ≡ 4096) }
    ensures { Listed list.old k (row_made cells.now (held_runs runs.now trits.now) starts.now slots.old row k).records result list.new × (slots.new ≡ sets slots.old (get_or starts.now row 0) (row_made cells.now (held_runs runs.now trits.now) starts.now slots.old row k).outs) }
{
    let at = row * 9;
    let kind = cells[at];
    let first = word_of(cells, at + 5);
    let one = word_of(cells, at + 6);
    let two = word_of(cells, at + 7);
    let three = word_of(cells, at + 8);
    let start = word_of(starts, row);
    let mut a = [0u16; 256];
    let mut b = [0u16; 256];
    let mut c = [0u16; 256];
    let x = gather_slots(runs, trits, starts, slots, first, one, &mut a);
    let y = gather_slots(runs, trits, starts, slots, first + one, two, &mut b);
    let z = gather_slots(runs, trits, starts, slots, first + one + two, three, &mut c);
    make_cell(kind, k, &a[0..x], &b[0..y], &c[0..z], list, slots, start)
}

// The records of rows in an order, one after the other, from record `from` on; which record is the next.
pub(crate) fn make_rows(
    cells: &[u32],
    runs: &[u32],
    trits: &[u8],
    starts: &[u32],
    order: &[u32],
    count: usize,
    from: usize,
    list: &mut [u8],
    slots: &mut [u16],
) -> usize
    requires { (count ≤ length order.now) × ((i : ℕ) → i < count → RowSound cells.now (held_runs runs.now trits.now) starts.now (get_or order.now i 0)) × Roomy list.old from (records_in (take count order.now) cells.now (held_runs runs.now trits.now) starts.now from slots.old) × (length slots.old ≡ 4096) }
    ensures { Listed list.old from (records_in (take count order.now) cells.now (held_runs runs.now trits.now) starts.now from slots.old) result list.new × (slots.new ≡ slots_in (take count order.now) cells.now (held_runs runs.now trits.now) starts.now from slots.old) }
{
    let mut k = from;
    for i in 0..count {
        let row = word_of(order, i);
        k = make_row(cells, runs, trits, starts, row, k, list, slots);
    }
    k
}
