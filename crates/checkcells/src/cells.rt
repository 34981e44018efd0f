// Cell rows, one after the other.
ghost use Rattle.std.specs.Prelude.{◌≡◌, true, ◌||◌, ◌+◌, ◌*◌, ◌≤◌, ◌<◌, leb, eqb, length, drop, get_or};
ghost use Rattle.kinds.specs.Kinds.{is_kind};
ghost use Rattle.checkcells.specs.Runs.{widths_in};
ghost use Rattle.checkcells.specs.Walk.{cell_named, cell_head, cell_placed, operands_walk, first_of, end_of, judged, out_width, out_of, trits_of, cell_good, cells_walk, runs_upto};

use crate::runs::operand_of;
use kinds::{fits, has_name, operands_of};
use pools::{blank_words, both, lies_at, word_of};

fn kind_known(kind: u32) -> bool
    ensures { result ≡ is_kind kind }
{
    if kind < 1 {
        return false;
    }
    kind <= 12
}

// A name of so many bytes: at least one, where the kind has a name.
fn name_sound(kind: u8, size: u32) -> bool
    ensures { result ≡ cell_named kind size }
{
    if has_name(kind) {
        if size < 1 {
            return false;
        }
        return size <= 255;
    }
    size == 0
}

// Runs of an operand stand only where the kind has it.
fn runs_allowed(operand: u8, operands: u8, runs: u32) -> bool
    ensures { result ≡ (leb operand operands || eqb runs 0) }
{
    if operand <= operands {
        return true;
    }
    runs == 0
}

fn head_sound(row: &[u32], kind: u8, metas: usize) -> bool
    requires { 9 ≤ length row.now }
    ensures { result ≡ cell_head metas kind row.now }
{
    let operands = operands_of(kind);
    let meta = word_of(row, 4);
    both(
        both(name_sound(kind, row[3]), meta <= metas),
        both(
            runs_allowed(1, operands, row[6]),
            both(
                runs_allowed(2, operands, row[7]),
                runs_allowed(3, operands, row[8]),
            ),
        ),
    )
}

// Whether the row's name and runs begin where the pools so far end, and are there.
fn is_placed(row: &[u32], s: usize, r: usize) -> bool
    requires { (9 ≤ length row.now) × (s ≤ 16384) × (r ≤ 4096) }
    ensures { result ≡ cell_placed s r row.now }
{
    let runs = word_of(row, 6) + (word_of(row, 7) + word_of(row, 8));
    both(
        lies_at(s, 16384, word_of(row, 2), word_of(row, 3)),
        lies_at(r, 4096, word_of(row, 5), runs),
    )
}

// The three operands of a cell: a, b and c runs from the run `first` on.
fn operands_good(
    cells: &[u32],
    n: usize,
    runs: &[u32],
    bits: &[u8],
    first: usize,
    a: usize,
    b: usize,
    c: usize,
    e: usize,
) -> Option<(usize, usize, usize, usize)>
    requires { (n * 9 ≤ length cells.now) × (length runs.now ≡ 12288) × (length bits.now ≡ 262656) × (first + (a + (b + c)) ≤ 4096) × (e ≤ 262656) }
    ensures { (result ≡ operands_walk (widths_in n cells.now) bits.now runs.now first e a b c) × (first_of result < 17592186044417) × (end_of result ≤ 262656) }
{
    let (x, f) = operand_of(cells, n, runs, bits, first, a, e)?;
    let (y, g) = operand_of(cells, n, runs, bits, first + a, b, f)?;
    let (z, h) = operand_of(cells, n, runs, bits, first + a + b, c, g)?;
    Some((x, y, z, h))
}

// The bits that a cell puts out, given the width of its first operand.
fn out_width(kind: u8, a: usize) -> usize
    ensures { (result ≡ out_width kind a) × (result ≤ a) }
{
    if kind == 2 {
        return a;
    }
    0
}

// The width rule of a cell.
fn judge(
    kind: u8,
    width: usize,
    operands: Option<(usize, usize, usize, usize)>,
) -> Option<(usize, usize)>
    requires { (first_of operands < 17592186044417) × (end_of operands ≤ 262656) }
    ensures { (result ≡ judged kind width operands) × (out_of result < 17592186044417) × (trits_of result ≤ 262656) }
{
    let (x, y, z, e) = operands?;
    if fits(kind, width as u64, x as u64, y as u64, z as u64) {
        return Some((out_width(kind, x), e));
    }
    None
}

// Whether a cell row is one of a good table, where the rows before it are.
fn cell_good(
    cells: &[u32],
    n: usize,
    row: &[u32],
    metas: usize,
    runs: &[u32],
    bits: &[u8],
    s: usize,
    r: usize,
    b: usize,
) -> Option<(usize, usize)>
    requires { (n * 9 ≤ length cells.now) × (9 ≤ length row.now) × (length runs.now ≡ 12288) × (length bits.now ≡ 262656) × (s ≤ 16384) × (r ≤ 4096) × (b ≤ 262656) }
    ensures { (result ≡ cell_good (widths_in n cells.now) bits.now runs.now metas s r b row.now) × (out_of result < 17592186044417) × (trits_of result ≤ 262656) }
{
    if kind_known(row[0]) {
        let kind = row[0] as u8;
        if both(is_placed(row, s, r), head_sound(row, kind, metas)) {
            let found = operands_good(
                cells,
                n,
                runs,
                bits,
                r,
                word_of(row, 6),
                word_of(row, 7),
                word_of(row, 8),
                b,
            );
            return judge(kind, word_of(row, 1), found);
        }
        return None;
    }
    None
}

// The walk over n rows, where the names begin at s: whether they are good and nothing stands behind them.
pub fn cells_good(
    cells: &[u32],
    n: usize,
    metas: usize,
    runs: &[u32],
    bits: &[u8],
    names: usize,
) -> Option<(usize, usize, usize, usize, usize)>
    requires { (n * 9 ≤ length cells.now) × (length cells.now ≡ 4608) × (length runs.now ≡ 12288) × (length bits.now ≡ 262656) × (names ≤ 16384) }
    ensures { (result ≡ cells_walk (widths_in n cells.now) bits.now runs.now metas cells.now 0 names 0 0 0 0 n) × (runs_upto result ≤ 4096) }
{
    let mut s = names;
    let mut r = 0;
    let mut b = 0;
    let mut d = 0;
    let mut o = 0;
    for i in 0..n {
        let at = i * 9;
        let (out, e) = cell_good(cells, n, &cells[at..], metas, runs, bits, s, r, b)?;
        s += word_of(cells, at + 3);
        r += word_of(cells, at + 6) + (word_of(cells, at + 7) + word_of(cells, at + 8));
        b = e;
        d += word_of(cells, at + 1);
        o += out;
    }
    if blank_words(cells, n * 9) {
        return Some((s, r, b, d, o));
    }
    None
}
