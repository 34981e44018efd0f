// The tables part by part: metadata, I/O, cells; each behind the strings of the one before.
ghost use Rattle.std.specs.Prelude.{◌≡◌, ◌&&◌, ◌*◌, ◌≤◌, length, drop};
ghost use Rattle.ground.specs.Regions.{blank};
ghost use Rattle.netlist.specs.Rules.{distinct};
ghost use Rattle.checking.specs.Names.{cell_names_in, CellsNamed};
ghost use Rattle.checking.specs.Walk.{upto_of};
ghost use Rattle.checking.specs.Parts.{metas_part, ios_part, cells_part};

use crate::ios::ios_good;
use crate::names::{cells_distinct, ios_distinct};
use blanks::{no_bytes, no_words};
use checkcells::cells::cells_good;
use checkmeta::rows::metas_good;
use pools::both;

pub(crate) fn metas_part(metas: &[u32], members: &[u32], bits: &[u8], n: usize) -> Option<usize>
    requires { (length metas.now ≡ 8192) × (length members.now ≡ 1024) × (length bits.now ≡ 131072) }
    ensures { (result ≡ metas_part metas.now members.now bits.now n) × (upto_of result ≤ 16384) }
{
    if 512 < n {
        return None;
    }
    let (s, m, b) = metas_good(metas, n, members, bits)?;
    if both(no_words(members, m), no_bytes(bits, b)) {
        return Some(s);
    }
    None
}

pub(crate) fn ios_part(ios: &[u32], strings: &[u8], n: usize, s: usize) -> Option<usize>
    requires { (length ios.now ≡ 192) × (length strings.now ≡ 16384) × (s ≤ 16384) }
    ensures { (result ≡ ios_part ios.now strings.now n s) × (upto_of result ≤ 16384) }
{
    if 64 < n {
        return None;
    }
    let t = ios_good(ios, n, s)?;
    if ios_distinct(ios, strings, n) {
        return Some(t);
    }
    None
}

// Whether nothing stands behind r runs and b trits.
fn blank_behind(runs: &[u32], bits: &[u8], r: usize, b: usize) -> bool
    requires { r ≤ 4096 }
    ensures { result ≡ (blank (drop (r * 3) runs.now) && blank (drop b bits.now)) }
{
    both(no_words(runs, r * 3), no_bytes(bits, b))
}

// Names are unique among inputs, likewise among outputs.
fn names_distinct(cells: &[u32], strings: &[u8], n: usize) -> bool
    requires { CellsNamed strings.now n cells.now }
    ensures { result ≡ (distinct (cell_names_in strings.now 1 n cells.now) && distinct (cell_names_in strings.now 2 n cells.now)) }
{
    let mut seen = [0u8; 65536];
    both(
        cells_distinct(cells, strings, n, 1, &mut seen),
        cells_distinct(cells, strings, n, 2, &mut seen),
    )
}

pub(crate) fn cells_part(
    cells: &[u32],
    runs: &[u32],
    bits: &[u8],
    strings: &[u8],
    n: usize,
    metas: usize,
    s: usize,
) -> Option<usize>
    requires { (length cells.now ≡ 4608) × (length runs.now ≡ 12288) × (length bits.now ≡ 262656) × (length strings.now ≡ 16384) × (s ≤ 16384) }
    ensures { result ≡ cells_part cells.now runs.now bits.now strings.now n metas s }
{
    if 512 < n {
        return None;
    }
    let (x, r, b, d, o) = cells_good(cells, n, metas, runs, bits, s)?;
    if both(
        both(d <= 4096, o <= 4096),
        both(
            blank_behind(runs, bits, r, b),
            names_distinct(cells, strings, n),
        ),
    ) {
        return Some(x);
    }
    None
}
