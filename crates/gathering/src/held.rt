// What holds the bits of an operand, gathered from its runs with bit 0 first: the last run holds bit 0. Past the end of a lent table or of
// what is held 0 is read, and bits that the room has no place for are dropped and counted.
ghost use Rattle.std.specs.Prelude.{◌≡◌, ℕ, map, reverse, ◌+◌, ◌-◌, ◌*◌, ◌<◌, ◌≤◌, min, drop, get_or};
ghost use Rattle.ground.specs.Regions.{part};
ghost use Rattle.ground.specs.Writes.{Put};
ghost use Rattle.netlist.specs.View.{run_in};
ghost use Rattle.cells.specs.Operands.{bits_from};
ghost use Rattle.cells.specs.Held.{holding, held_runs, held_bits, run_from, rising};

use words::{least, rows_end, wide, word_at};

// What holds a bit: its value itself, or the number of a slot. A trit is held by its own number: slots 0, 1, 2 hold 0, 1, X.
pub trait Holds: Copy + From<u8> {
    ghost value: { Self → ℕ };

    ghost trit_held: { (trit : ℕ) (held : Self) → Self.from_gives trit held → value held ≡ trit };
}

impl Holds for u8 {
    ghost value = { λ x. x };

    ghost trit_held = { λ trit held gives. gives };
}

impl Holds for u16 {
    ghost value = { λ x. x };

    ghost trit_held = { λ trit held gives. gives };
}

fn held_at<T: Holds>(held: &[T], i: usize) -> T
    ensures { T.value result ≡ get_or (map T.value held.now) i 0 }
{
    if i < held.len() {
        return held[i];
    }
    T::from(0)
}

// A constant: its trits stand with the most significant first, so they are taken from the last to the first.
fn put_const<T: Holds>(trits: &[u8], start: u32, size: u32, out: &mut [T], n: usize) -> usize
    requires { n ≤ 17592186044416 }
    ensures { Put (map T.value out.old) n (reverse (part start size trits.now)) result (map T.value out.new) × (result ≤ n + 4294967295) }
{
    let low = wide(start);
    if trits.len() <= low {
        return n;
    }
    let high = least(low + wide(size), trits.len());
    let end = n + (high - low);
    let stop = least(end, out.len());
    // Counted beside i: reckoned from i, the place of the trit made short runs slower.
    let mut k = high;
    for i in n..stop {
        k -= 1;
        out[i] = T::from(trits[k]);
    }
    end
}

// A piece of a cell: what holds its bits, from the lowest bit up.
fn put_piece<T: Holds>(held: &[T], at: usize, size: u32, out: &mut [T], n: usize) -> usize
    requires { (n ≤ 17592186044416) × (at < 8589934592) }
    ensures { Put (map T.value out.old) n (rising (map T.value held.now) at size) result (map T.value out.new) × (result ≤ n + 4294967295) }
{
    let end = n + wide(size);
    let stop = least(end, out.len());
    // Counted beside i, as in put_const.
    let mut k = at;
    for i in n..stop {
        out[i] = held_at(held, k);
        k += 1;
    }
    end
}

// The run in row k of the table of runs.
fn put_run<T: Holds>(
    runs: &[u32],
    trits: &[u8],
    starts: &[u32],
    held: &[T],
    k: usize,
    out: &mut [T],
    n: usize,
) -> usize
    requires { (k < 4096) × (n ≤ 17592186044416) }
    ensures { Put (map T.value out.old) n (run_from (held_bits starts.now (map T.value held.now)) (run_in (holding trits.now) (drop (k * 3) runs.now))) result (map T.value out.new) × (result ≤ n + 4294967295) }
{
    let cell = word_at(runs, k * 3);
    let first = word_at(runs, k * 3 + 1);
    let size = word_at(runs, k * 3 + 2);
    if cell == 0 {
        return put_const(trits, first, size, out, n);
    }
    let start = word_at(starts, wide(cell - 1));
    put_piece(held, wide(start) + wide(first), size, out, n)
}

// The operand that has `size` rows of the table of runs, from the row `from` on: what holds its bits, and how many they are.
pub fn gather_held<T: Holds>(
    runs: &[u32],
    trits: &[u8],
    starts: &[u32],
    held: &[T],
    from: usize,
    size: usize,
    out: &mut [T],
) -> usize
    ensures { Put (map T.value out.old) 0 (bits_from (held_bits starts.now (map T.value held.now)) (part from size (held_runs runs.now trits.now))) result (map T.value out.new) }
{
    let mut n: usize = 0;
    for k in (from..rows_end(from, size, 4096)).rev() {
        n = put_run(runs, trits, starts, held, k, out, n);
    }
    n
}
