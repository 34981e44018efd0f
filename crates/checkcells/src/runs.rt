// Run rows: the constants and the pieces of operands.
ghost use Rattle.std.specs.Prelude.{◌≡◌, ◌&&◌, ◌+◌, ◌*◌, ◌≤◌, ◌<◌, length, drop, get_or};
ghost use Rattle.ground.specs.Lists.{every};
ghost use Rattle.ground.specs.Regions.{part};
ghost use Rattle.netlist.specs.Rules.{is_trit, resolves};
ghost use Rattle.pools.specs.Lying.{lies};
ghost use Rattle.checkcells.specs.Runs.{widths_in, joins_next, run_good, head_good, run_trits, operand_walk, end_of, wide_of};

use pools::{all_trits, lies_at, word_of};

// Whether a piece resolves: one look at its cell's row.
fn resolves_in(cells: &[u32], n: usize, row: usize, offset: usize, width: usize) -> bool
    requires { (n * 9 ≤ length cells.now) × (offset < 4294967296) × (width < 4294967296) }
    ensures { result ≡ resolves (widths_in n cells.now) row offset width }
{
    if row < n {
        return offset + width <= word_of(cells, row * 9 + 1);
    }
    false
}

// Whether a constant's trits are the next of the pool, and are trits.
fn const_good(bits: &[u8], b: usize, start: usize, width: usize) -> bool
    requires { (length bits.now ≡ 262656) × (b ≤ 262656) × (width < 4294967296) }
    ensures { result ≡ (lies b 262656 start width && every is_trit (part b width bits.now)) }
{
    if lies_at(b, 262656, start, width) {
        let end = b + width;
        return all_trits(&bits[b..end]);
    }
    false
}

// A run by itself, where b trits lie before it.
fn run_good(cells: &[u32], n: usize, row: &[u32], bits: &[u8], b: usize) -> bool
    requires { (n * 9 ≤ length cells.now) × (3 ≤ length row.now) × (length bits.now ≡ 262656) × (b ≤ 262656) }
    ensures { result ≡ run_good (widths_in n cells.now) bits.now b row.now }
{
    let source = word_of(row, 0);
    let start = word_of(row, 1);
    let width = word_of(row, 2);
    if width < 1 {
        return false;
    }
    if source == 0 {
        return const_good(bits, b, start, width);
    }
    resolves_in(cells, n, source - 1, start, width)
}

// Whether the first two runs would be one longer run.
fn joins_next(row: &[u32]) -> bool
    requires { 6 ≤ length row.now }
    ensures { result ≡ joins_next row.now }
{
    let start = word_of(row, 1);
    let next = word_of(row, 4) + word_of(row, 5);
    if row[0] == 0 {
        return row[3] == 0;
    }
    if row[3] == 0 {
        return false;
    }
    if row[0] == row[3] {
        return start == next;
    }
    false
}

// The first run of `more` and one runs of an operand.
fn head_good(cells: &[u32], n: usize, row: &[u32], bits: &[u8], b: usize, more: usize) -> bool
    requires { (n * 9 ≤ length cells.now) × (3 + more * 3 ≤ length row.now) × (length bits.now ≡ 262656) × (b ≤ 262656) }
    ensures { result ≡ head_good (widths_in n cells.now) bits.now b more row.now }
{
    if run_good(cells, n, row, bits, b) {
        if more == 0 {
            return true;
        }
        if joins_next(row) {
            return false;
        }
        return true;
    }
    false
}

// How many trits of the pool a run has.
fn trits_of(runs: &[u32], at: usize) -> usize
    requires { at + 3 ≤ length runs.now }
    ensures { (result ≡ run_trits (drop at runs.now)) × (result < 4294967296) }
{
    if runs[at] == 0 {
        return word_of(runs, at + 2);
    }
    0
}

// The walk over the runs of an operand, from the run `first` on, where b trits lie before them.
pub(crate) fn operand_of(
    cells: &[u32],
    n: usize,
    runs: &[u32],
    bits: &[u8],
    first: usize,
    count: usize,
    b: usize,
) -> Option<(usize, usize)>
    requires { (n * 9 ≤ length cells.now) × (length runs.now ≡ 12288) × (first + count ≤ 4096) × (length bits.now ≡ 262656) × (b ≤ 262656) }
    ensures { (result ≡ operand_walk (widths_in n cells.now) bits.now runs.now first b 0 count) × (wide_of result < 17592186044417) × (end_of result ≤ 262656) }
{
    let mut e = b;
    let mut w = 0;
    for i in 0..count {
        let at = (first + i) * 3;
        if !head_good(cells, n, &runs[at..], bits, e, count - 1 - i) {
            return None;
        }
        e += trits_of(runs, at);
        w += word_of(runs, at + 2);
    }
    Some((w, e))
}
