// Names declared twice (rule 9): a name beside those of the rows behind it. The rows are gone through from the last to the first, and each
// name leaves its mark; only a name whose mark is there already is compared with the names behind it.
ghost use Rattle.std.specs.Prelude.{◌≡◌, ◌&&◌, ◌+◌, ◌*◌, ◌-◌, ◌≤◌, ◌<◌, eqb, length, drop};
ghost use Rattle.ground.specs.Regions.{part};
ghost use Rattle.ground.specs.Text.{same};
ghost use Rattle.netlist.specs.Rules.{taken, distinct};
ghost use Rattle.netlist.specs.View.{word};
ghost use Rattle.marking.specs.Marks.{Marked};
ghost use Rattle.checking.specs.Names.{io_name, cell_name, io_names_in, cell_names_in, IosNamed, CellsNamed};

use comparing::same_bytes;
use marking::is_new_name;
use pools::word_of;

// Whether the I/O row i has the name.
pub(crate) fn io_named(ios: &[u32], strings: &[u8], i: usize, name: &[u8]) -> bool
    requires { (i * 3 + 3 ≤ length ios.now) × (word (drop (i * 3) ios.now) 0 + word (drop (i * 3) ios.now) 1 ≤ length strings.now) }
    ensures { result ≡ same (io_name strings.now (drop (i * 3) ios.now)) name.now }
{
    let row = i * 3;
    let start = word_of(ios, row);
    let end = start + word_of(ios, row + 1);
    same_bytes(&strings[start..end], name)
}

// Whether one of the I/O rows from the row `from` on, of n in all, has the name.
fn io_taken(ios: &[u32], strings: &[u8], from: usize, n: usize, name: &[u8]) -> bool
    requires { (from ≤ n) × IosNamed strings.now n ios.now }
    ensures { result ≡ taken name.now (io_names_in strings.now (n - from) (drop (from * 3) ios.now)) }
{
    for i in from..n {
        if io_named(ios, strings, i, name) {
            return true;
        }
    }
    false
}

// Whether the name of the I/O row i is taken by a row behind it, whose names have left their marks.
fn io_again(ios: &[u32], strings: &[u8], i: usize, n: usize, seen: &mut [u8]) -> bool
    requires { (i < n) × IosNamed strings.now n ios.now × Marked 255 seen.old (io_names_in strings.now (n - (i + 1)) (drop ((i + 1) * 3) ios.now)) }
    ensures { (result ≡ taken (io_name strings.now (drop (i * 3) ios.now)) (io_names_in strings.now (n - (i + 1)) (drop ((i + 1) * 3) ios.now))) × Marked 255 seen.new (io_names_in strings.now (n - i) (drop (i * 3) ios.now)) }
{
    let row = i * 3;
    let start = word_of(ios, row);
    let end = start + word_of(ios, row + 1);
    if is_new_name(seen, 255, &strings[start..end]) {
        return false;
    }
    io_taken(ios, strings, i + 1, n, &strings[start..end])
}

fn ios_marked(ios: &[u32], strings: &[u8], n: usize, seen: &mut [u8]) -> bool
    requires { IosNamed strings.now n ios.now × (length seen.old ≡ 65536) }
    ensures { result ≡ distinct (io_names_in strings.now n ios.now) }
{
    for i in (0..n).rev() {
        if io_again(ios, strings, i, n, seen) {
            return false;
        }
    }
    true
}

// Whether no two of the n I/O rows have one name.
pub(crate) fn ios_distinct(ios: &[u32], strings: &[u8], n: usize) -> bool
    requires { IosNamed strings.now n ios.now }
    ensures { result ≡ distinct (io_names_in strings.now n ios.now) }
{
    let mut seen = [0u8; 65536];
    ios_marked(ios, strings, n, &mut seen)
}

// Whether the cell row i is of the kind and has the name.
fn cell_named(cells: &[u32], strings: &[u8], i: usize, kind: u32, name: &[u8]) -> bool
    requires { (i * 9 + 9 ≤ length cells.now) × (word (drop (i * 9) cells.now) 2 + word (drop (i * 9) cells.now) 3 ≤ length strings.now) }
    ensures { result ≡ (eqb (word (drop (i * 9) cells.now) 0) kind && same (cell_name strings.now (drop (i * 9) cells.now)) name.now) }
{
    let row = i * 9;
    if cells[row] == kind {
        let start = word_of(cells, row + 2);
        let end = start + word_of(cells, row + 3);
        return same_bytes(&strings[start..end], name);
    }
    false
}

// Whether one of the cell rows from the row `from` on, of n in all, is of the kind and has the name.
fn cell_taken(cells: &[u32], strings: &[u8], from: usize, n: usize, kind: u32, name: &[u8]) -> bool
    requires { (from ≤ n) × CellsNamed strings.now n cells.now }
    ensures { result ≡ taken name.now (cell_names_in strings.now kind (n - from) (drop (from * 9) cells.now)) }
{
    for i in from..n {
        if cell_named(cells, strings, i, kind, name) {
            return true;
        }
    }
    false
}

// Whether the name of the cell row i, where it is of the kind, is taken by a row behind it. Those names have left their marks.
fn cell_again(cells: &[u32], strings: &[u8], i: usize, n: usize, kind: u32, seen: &mut [u8]) -> bool
    requires { (i < n) × CellsNamed strings.now n cells.now × Marked kind seen.old (cell_names_in strings.now kind (n - (i + 1)) (drop ((i + 1) * 9) cells.now)) }
    ensures { (result ≡ (eqb (word (drop (i * 9) cells.now) 0) kind && taken (cell_name strings.now (drop (i * 9) cells.now)) (cell_names_in strings.now kind (n - (i + 1)) (drop ((i + 1) * 9) cells.now)))) × Marked kind seen.new (cell_names_in strings.now kind (n - i) (drop (i * 9) cells.now)) }
{
    let row = i * 9;
    if cells[row] == kind {
        let start = word_of(cells, row + 2);
        let end = start + word_of(cells, row + 3);
        if is_new_name(seen, kind, &strings[start..end]) {
            return false;
        }
        return cell_taken(cells, strings, i + 1, n, kind, &strings[start..end]);
    }
    false
}

// Whether no two of the n cells are of the kind and have one name; the map may hold marks already.
pub(crate) fn cells_distinct(
    cells: &[u32],
    strings: &[u8],
    n: usize,
    kind: u32,
    seen: &mut [u8],
) -> bool
    requires { CellsNamed strings.now n cells.now × (length seen.old ≡ 65536) }
    ensures { result ≡ distinct (cell_names_in strings.now kind n cells.now) }
{
    for i in (0..n).rev() {
        if cell_again(cells, strings, i, n, kind, seen) {
            return false;
        }
    }
    true
}
