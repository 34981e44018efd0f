// One run in the run rows: a row of three words, behind the others, or the last one made longer. It promises that the runs of an operand stay
// the longest ones, or that one more than 4,096 would be needed. Laying stands below it, the runs of a cell's operands above.
#![tactic(auto)]

ghost use Rattle.std.specs.Prelude.{◌≡◌, List, [], ◌∷◌, ℕ, ◌+◌, ◌≤◌, length};
ghost use Rattle.std.proofs.lemmas.List.Edits.{sets};
ghost use Rattle.netlist.specs.Runs.{known_bits, falling};
ghost use Rattle.laying.specs.Growing.{OpenedRows, Grows, Added, last_is, last_is_from};

use brackets::Piece;
use laying::Laid;

fn put_row(runs: &mut [u32], at: usize, head: u32, from: u32, width: u32)
    requires { at + 3 ≤ length runs.old }
    ensures { runs.new ≡ sets runs.old at (head ∷ from ∷ width ∷ []) }
{
    runs[at] = head;
    runs[at + 1] = from;
    runs[at + 2] = width;
}

// Whether the operand that begins at the row `first` has a run, of the n in use, and the last one is of this head.
fn last_is(runs: &[u32], first: usize, n: usize, head: u32) -> bool
    requires { (length runs.now ≡ 12288) × (n ≤ 4096) }
    ensures { result ≡ last_is runs.now first n head }
{
    if first < n {
        return runs[3 * (n - 1)] == head;
    }
    false
}

// .. and begins there.
fn last_is_from(runs: &[u32], first: usize, n: usize, head: u32, from: u32) -> bool
    requires { (length runs.now ≡ 12288) × (n ≤ 4096) }
    ensures { result ≡ last_is_from runs.now first n head from }
{
    if last_is(runs, first, n, head) {
        return runs[3 * (n - 1) + 1] == from;
    }
    false
}

// A run of its own behind those in use, with `size` trits behind those in use; document 01 has room for 4,096 runs.
fn add_row(
    runs: &mut [u32],
    so: Laid,
    head: u32,
    from: u32,
    width: u32,
    size: usize,
) -> Option<Laid>
    requires { (length runs.old ≡ 12288) × (so.runs ≤ 4096) × (so.trits + size ≤ 262656) }
    ensures { Added runs.old so (head ∷ from ∷ width ∷ []) size result runs.new }
{
    let n = so.runs;
    if n == 4096 {
        return None;
    }
    put_row(runs, 3 * n, head, from, width);
    let runs = n + 1;
    let trits = so.trits + size;
    Some(Laid { runs, trits })
}

// A piece behind the operand's runs: it makes the last one longer where that goes on into it.
pub fn add_piece(runs: &mut [u32], first: usize, so: Laid, p: Piece) -> Option<Laid>
    requires { (p.cell ≤ 65535) × (p.offset ≤ 65535) × OpenedRows first runs.old so p.width }
    ensures { (trits : List ℕ) → Grows first runs.old trits so (falling p.cell p.offset p.width) result runs.new trits }
{
    let n = so.runs;
    let from = p.offset;
    let width = p.width;
    if width == 0 {
        return Some(so);
    }
    let head = p.cell + 1;
    if last_is_from(runs, first, n, head, from + width) {
        let at = 3 * (n - 1);
        let long = runs[at + 2] + width;
        put_row(runs, at, head, from, long);
        return Some(so);
    }
    add_row(runs, so, head, from, width, 0)
}

// A constant of `size` trits behind the operand's runs: it makes the last one longer where that is a constant.
pub fn add_known(runs: &mut [u32], first: usize, so: Laid, size: usize) -> Option<Laid>
    requires { OpenedRows first runs.old so size }
    ensures { (trits ts : List ℕ) → length ts ≡ size → Grows first runs.old trits so (known_bits ts) result runs.new (sets trits so.trits ts) }
{
    let n = so.runs;
    let start = so.trits;
    if size == 0 {
        return Some(so);
    }
    if last_is(runs, first, n, 0) {
        let at = 3 * (n - 1);
        let from = runs[at + 1];
        let long = runs[at + 2] + size as u32;
        put_row(runs, at, 0, from, long);
        return Some(Laid {
            runs: n,
            trits: start + size,
        });
    }
    add_row(runs, so, 0, start as u32, size as u32, size)
}
