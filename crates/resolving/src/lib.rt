// Resolving: when all declarations are noted, whether each piece of the text resolves (14). It promises the place of the first piece that
// does not, zero-width and zero-times ones included. Saying stands below it, reading above.
#![tactic(auto)]

ghost use Rattle.std.specs.Prelude.{◌≡◌, ◌≤◌, length};
ghost use Rattle.brackets.specs.Parts.{parts_at};
ghost use Rattle.saying.specs.Pieces.{base_in};
ghost use Rattle.resolving.specs.Resolving.{RunsNumbered, resolves_in, row_resolves, rows_resolve, base_lost, lost_from, operand_of, lost_of};

use brackets::{Base, Operand, Part, Piece};
use ground::Place;
use walks::{operand_walk, walk_next};
use words::word_at;

// Whether a piece resolves: its cell is declared, and it ends within the cell's width.
fn resolves(map: &[u32], cells: &[u32], p: Piece) -> bool
    ensures { result ≡ resolves_in map.now cells.now p }
{
    let row = word_at(map, p.cell as usize) as usize;
    if row < 1 {
        return false;
    }
    let end = (p.offset as u64) + (p.width as u64);
    end <= (word_at(cells, (row - 1) * 9 + 1) as u64)
}

// Whether a run row resolves; a constant begins with 0 and does.
fn run_resolves(map: &[u32], cells: &[u32], head: u32, from: u32, width: u32) -> bool
    ensures { result ≡ row_resolves map.now cells.now head from width }
{
    if head == 0 {
        return true;
    }
    resolves(
        map,
        cells,
        Piece {
            cell: head - 1,
            offset: from,
            width: width,
        },
    )
}

// Whether each of the first n run rows resolves. Where no part of the text is without bits, each piece resolves then.
pub fn runs_resolve(map: &[u32], cells: &[u32], runs: &[u32], n: usize) -> bool
    requires { RunsNumbered runs.now n }
    ensures { result ≡ rows_resolve map.now cells.now n runs.now }
{
    for i in 0..n {
        let k = i * 3;
        if !run_resolves(map, cells, runs[k], runs[k + 1], runs[k + 2]) {
            return false;
        }
    }
    true
}

// What a part repeats, or is; how often does not matter here.
fn base_of(part: Part) -> Base
    ensures { result ≡ base_in part }
{
    match part {
        Part::One(b) => b,
        Part::Repeated(b, _) => b,
    }
}

fn is_lost(map: &[u32], cells: &[u32], base: Base) -> bool
    ensures { result ≡ base_lost map.now cells.now base }
{
    match base {
        Base::Constant(_) => false,
        Base::Cell(p) => !resolves(map, cells, p),
    }
}

// The first piece of an operand that does not resolve.
fn lost_in(text: &[u8], operand: Operand, map: &[u32], cells: &[u32]) -> Option<Place>
    ensures { result ≡ lost_from map.now cells.now (parts_at text.now operand) }
{
    let mut walk = operand_walk(text, operand);
    while let Some((part, place, next)) = walk_next(text, walk) {
        if is_lost(map, cells, base_of(part)) {
            return Some(place);
        }
        walk = next;
    }
    None
}

fn operand_of(word: u32) -> Operand
    ensures { result ≡ operand_of word }
{
    if word == 0 {
        return Operand {
            given: false,
            at: 0,
            width: 0,
        };
    }
    Operand {
        given: true,
        at: (word - 1) as usize,
        width: 0,
    }
}

// The first piece that does not resolve, over the operands that the first n words of `places` tell.
pub fn first_lost(
    text: &[u8],
    places: &[u32],
    n: usize,
    map: &[u32],
    cells: &[u32],
) -> Option<Place>
    requires { n ≤ length places.now }
    ensures { result ≡ lost_of text.now map.now cells.now n places.now }
{
    for i in 0..n {
        if let Some(place) = lost_in(text, operand_of(places[i]), map, cells) {
            return Some(place);
        }
    }
    None
}
