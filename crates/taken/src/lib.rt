// Taken: whether a name is taken among the rows noted so far, by its decoded bytes (rule 9). It promises the answers that the rules of the
// netlist give of what the notes say. The steps of reading stand above it.
#![tactic(auto)]

ghost use Rattle.std.specs.Prelude.{◌≡◌, List, ◌+◌, ◌*◌, ◌<◌, ◌≤◌, length, drop, get_or};
ghost use Rattle.ground.specs.Lists.{joined};
ghost use Rattle.ground.specs.Regions.{pad};
ghost use Rattle.ground.specs.Text.{same};
ghost use Rattle.signs.specs.Pieces.{decoded};
ghost use Rattle.netlist.specs.Rules.{taken, io_names, names_as};
ghost use Rattle.saying.specs.Notes.{IoNote, CellNote, io_note, cell_note, ios_said, cells_said, SpellIos, SpellCells};
ghost use Rattle.asking.specs.Namesakes.{same_raw, namesake, io_namesake, cell_namesake, Sized, IosNoted, CellsNoted, FreshIo, FreshCell, Passes};

use decoding::next_byte;
use words::word_at;

// Whether two places of the text hold the same byte, one that means itself.
fn same_raw(text: &[u8], i: usize, j: usize) -> bool
    requires { (i < length text.now) × (j < length text.now) }
    ensures { result ≡ same_raw text.now i j }
{
    let b = text[i];
    if b == 92 {
        return false;
    }
    b == text[j]
}

// Whether two strings of the text that mean `size` bytes each mean the same. Most bytes mean themselves.
fn same_string(text: &[u8], a: usize, b: usize, size: usize) -> bool
    requires { (size ≡ length (decoded text.now a)) × (size ≡ length (decoded text.now b)) }
    ensures { result ≡ same (decoded text.now a) (decoded text.now b) }
{
    let mut i = a;
    let mut j = b;
    for _done in 0..size {
        if same_raw(text, i, j) {
            i += 1;
            j += 1;
            continue;
        }
        let x = next_byte(text, i);
        let y = next_byte(text, j);
        if x.byte != y.byte {
            return false;
        }
        i = x.end;
        j = y.end;
    }
    true
}

// Whether the noted name of `long` bytes is the name of `size` bytes; names of other sizes are never compared.
fn is_namesake(text: &[u8], from: usize, size: usize, at: usize, long: usize) -> bool
    requires { (size ≡ length (decoded text.now from)) × Sized text.now at long }
    ensures { result ≡ namesake text.now from size at long }
{
    if long == size {
        if size == 0 {
            return true;
        }
        return same_string(text, from, at, size);
    }
    false
}

fn io_named(text: &[u8], ios: &[u32], i: usize, from: usize, size: usize) -> bool
    requires { (i * 3 + 3 ≤ length ios.now) × (size ≡ length (decoded text.now from)) × Sized text.now (get_or (drop (i * 3) ios.now) 0 0) (get_or (drop (i * 3) ios.now) 1 0) }
    ensures { result ≡ io_namesake text.now from size (drop (i * 3) ios.now) }
{
    let row = i * 3;
    let at = word_at(ios, row) as usize;
    let long = word_at(ios, row + 1) as usize;
    is_namesake(text, from, size, at, long)
}

// Whether one of the first n noted I/O rows has the name of `size` bytes that the text spells from the place on.
fn io_found(text: &[u8], ios: &[u32], n: usize, from: usize, size: usize) -> bool
    requires { IosNoted text.now ios.now n × (size ≡ length (decoded text.now from)) }
    ensures { (ns : List IoNote) → ios.now ≡ pad 192 (joined io_note ns) → n ≡ length ns → SpellIos text.now ns → result ≡ taken (decoded text.now from) (io_names (ios_said ns)) }
{
    for i in 0..n {
        if io_named(text, ios, i, from, size) {
            return true;
        }
    }
    false
}

// The same of a name that may be known to be fresh, as its mark tells: then no row is looked at.
pub fn io_taken(text: &[u8], ios: &[u32], n: usize, from: usize, size: usize, fresh: bool) -> bool
    requires { IosNoted text.now ios.now n × (size ≡ length (decoded text.now from)) × FreshIo text.now ios.now n from size fresh }
    ensures { (ns : List IoNote) → ios.now ≡ pad 192 (joined io_note ns) → n ≡ length ns → SpellIos text.now ns → result ≡ taken (decoded text.now from) (io_names (ios_said ns)) }
{
    if fresh {
        return false;
    }
    io_found(text, ios, n, from, size)
}

fn cell_named(text: &[u8], cells: &[u32], i: usize, kind: u8, from: usize, size: usize) -> bool
    requires { (i * 9 + 9 ≤ length cells.now) × (size ≡ length (decoded text.now from)) × Sized text.now (get_or (drop (i * 9) cells.now) 2 0) (get_or (drop (i * 9) cells.now) 3 0) }
    ensures { result ≡ cell_namesake text.now kind from size (drop (i * 9) cells.now) }
{
    let row = i * 9;
    if cells[row] == (kind as u32) {
        let at = word_at(cells, row + 2) as usize;
        let long = word_at(cells, row + 3) as usize;
        return is_namesake(text, from, size, at, long);
    }
    false
}

// The first of n noted cells that is of the kind, from the row on; n where none is. Most cells are of other kinds, so these have a
// loop of their own.
fn next_of_kind(cells: &[u32], row: usize, n: usize, kind: u8) -> usize
    requires { (row ≤ n) × (n * 9 ≤ length cells.now) }
    ensures { (row ≤ result) × (result ≤ n) × Passes kind n row result cells.now }
{
    let mut i = row;
    let mut at = row * 9;
    // By `while`: the row and its place go on together, and the row where it ends is the answer.
    while i < n {
        if cells[at] == (kind as u32) {
            return i;
        }
        i += 1;
        at += 9;
    }
    i
}

// Whether one of the first n noted cells is of the kind and has the name.
fn cell_found(text: &[u8], cells: &[u32], n: usize, kind: u8, from: usize, size: usize) -> bool
    requires { CellsNoted text.now cells.now n × (size ≡ length (decoded text.now from)) }
    ensures { (ns : List CellNote) → cells.now ≡ pad 4608 (joined cell_note ns) → n ≡ length ns → SpellCells text.now ns → result ≡ taken (decoded text.now from) (names_as kind (cells_said ns)) }
{
    let mut i = next_of_kind(cells, 0, n, kind);
    // By `while`: a step goes to the next cell of the kind.
    while i < n {
        if cell_named(text, cells, i, kind, from, size) {
            return true;
        }
        i = next_of_kind(cells, i + 1, n, kind);
    }
    false
}

// The same of a name that may be known to be fresh among the cells of its kind.
pub fn cell_taken(
    text: &[u8],
    cells: &[u32],
    n: usize,
    kind: u8,
    from: usize,
    size: usize,
    fresh: bool,
) -> bool
    requires { CellsNoted text.now cells.now n × (size ≡ length (decoded text.now from)) × FreshCell text.now cells.now n kind from size fresh }
    ensures { (ns : List CellNote) → cells.now ≡ pad 4608 (joined cell_note ns) → n ≡ length ns → SpellCells text.now ns → result ≡ taken (decoded text.now from) (names_as kind (cells_said ns)) }
{
    if fresh {
        return false;
    }
    cell_found(text, cells, n, kind, from, size)
}
