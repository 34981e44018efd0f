// Settling: when all of a text is read, the notes of its rows become the rows of docs/LAYOUT.md: every start is filled in, and the
// strings are laid one behind the other in the order of the canonical text. Saying stands below it, reading above.
#![tactic(auto)]

ghost use Rattle.std.specs.Prelude.{◌≡◌, List, ℕ, ◌+◌, ◌*◌, ◌<◌, ◌≤◌, length, get_or, set};
ghost use Rattle.std.proofs.lemmas.List.Edits.{sets};
ghost use Rattle.saying.specs.Notes.{spelled};
ghost use Rattle.settling.specs.Settling.{MetaHere, meta_started, meta_laid, meta_next, MetasGiven, SettlesMetas, IoHere, io_started, io_laid, io_next, IosGiven, SettlesIos, CellHere, cell_started, cell_laid, cell_next, CellsGiven, SettlesCells};

use decoding::fill;
use words::wide;

// Where the next string, member and attribute trit lie.
#[derive(Clone, Copy)]
pub struct Starts {
    pub strings: usize,
    pub members: usize,
    pub trits: usize,
}

// Where the next string and the next run lie.
#[derive(Clone, Copy)]
pub struct CellStarts {
    pub strings: usize,
    pub runs: usize,
}

fn word(x: usize) -> u32
    requires { x < 4294967296 }
    ensures { result ≡ x }
{
    x as u32
}

// A string laid from the place s on, and the place behind it.
fn lay_string(text: &[u8], at: u32, size: u32, strings: &mut [u8], s: usize) -> usize
    requires { (size ≡ length (spelled text.now at size)) × (s + size ≤ length strings.old) × (length strings.old ≤ 16384) }
    ensures { (result ≡ s + size) × (strings.new ≡ sets strings.old s (spelled text.now at size)) }
{
    if size == 0 {
        return s;
    }
    let end = s + wide(size);
    fill(text, wide(at), wide(size), &mut strings[s..end]);
    end
}

// A noted row of metadata with its starts filled in and its strings laid, and where the next ones lie.
fn settle_meta(text: &[u8], row: &mut [u32], strings: &mut [u8], so: Starts) -> Starts
    requires { MetaHere text.now row.old strings.old so }
    ensures { (row.new ≡ meta_started row.old so) × (strings.new ≡ meta_laid text.now row.old strings.old so) × (result ≡ meta_next row.old so) }
{
    let first = so.strings;
    let second = lay_string(text, row[1], row[2], strings, first);
    let end = lay_string(text, row[3], row[4], strings, second);
    let members = so.members;
    let trits = so.trits;
    let next = Starts {
        strings: end,
        members: members + wide(row[6]),
        trits: trits + wide(row[8]),
    };
    row[1] = word(first);
    row[3] = word(second);
    row[5] = word(members);
    row[7] = word(trits);
    next
}

// The noted rows of metadata become rows, and their strings are laid from the start of the pool on; where the next string lies.
pub fn settle_metas(text: &[u8], metas: &mut [u32], n: usize, strings: &mut [u8]) -> usize
    requires { MetasGiven text.now n metas.old × (length strings.old ≡ 16384) }
    ensures { SettlesMetas text.now n metas.old strings.old metas.new strings.new result }
{
    let mut so = Starts {
        strings: 0,
        members: 0,
        trits: 0,
    };
    for i in 0..n {
        let k = i * 16;
        so = settle_meta(text, &mut metas[k..k + 16], strings, so);
    }
    so.strings
}

// A noted I/O row with its start filled in and its name laid, and where the next string lies.
fn settle_io(text: &[u8], row: &mut [u32], strings: &mut [u8], s: usize) -> usize
    requires { IoHere text.now row.old strings.old s }
    ensures { (row.new ≡ io_started row.old s) × (strings.new ≡ io_laid text.now row.old strings.old s) × (result ≡ io_next row.old s) }
{
    let end = lay_string(text, row[0], row[1], strings, s);
    row[0] = word(s);
    end
}

// The noted I/O rows become rows, and their names are laid from the place `first` on; where the next string lies.
pub fn settle_ios(text: &[u8], ios: &mut [u32], n: usize, strings: &mut [u8], first: usize) -> usize
    requires { IosGiven text.now n first ios.old × (length strings.old ≡ 16384) }
    ensures { SettlesIos text.now n first ios.old strings.old ios.new strings.new result }
{
    let mut s = first;
    for i in 0..n {
        let k = i * 3;
        s = settle_io(text, &mut ios[k..k + 3], strings, s);
    }
    s
}

// A noted cell row with its starts filled in and its name laid, and where the next ones lie.
fn settle_cell(text: &[u8], row: &mut [u32], strings: &mut [u8], so: CellStarts) -> CellStarts
    requires { CellHere text.now row.old strings.old so }
    ensures { (row.new ≡ cell_started row.old so) × (strings.new ≡ cell_laid text.now row.old strings.old so) × (result ≡ cell_next row.old so) }
{
    let first = so.strings;
    let runs = so.runs;
    let end = lay_string(text, row[2], row[3], strings, first);
    let next = CellStarts {
        strings: end,
        runs: runs + wide(row[6]) + wide(row[7]) + wide(row[8]),
    };
    row[2] = word(first);
    row[5] = word(runs);
    next
}

// The noted cell rows become rows, and their names are laid from the place `first` on.
pub fn settle_cells(
    text: &[u8],
    cells: &mut [u32],
    n: usize,
    strings: &mut [u8],
    first: usize,
) -> usize
    requires { CellsGiven text.now n first cells.old × (length strings.old ≡ 16384) }
    ensures { SettlesCells text.now n first cells.old strings.old cells.new strings.new result }
{
    let mut so = CellStarts {
        strings: first,
        runs: 0,
    };
    for i in 0..n {
        let k = i * 9;
        so = settle_cell(text, &mut cells[k..k + 9], strings, so);
    }
    so.strings
}
