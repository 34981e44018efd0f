// Placing: the order in which cells are worked out or translated, and rings. It promises the order of document 01 and whether a cell is
// left out, for the words of good tables. The graph and the cells stand below it; evaluating and translating above.
#![tactic(auto)]

mod search;
mod turns;

ghost use Rattle.std.specs.Prelude.{◌≡◌, not, ◌*◌, ◌<◌, ◌≤◌, eqb, length};
ghost use Rattle.ground.specs.Choice.{pick};
ghost use Rattle.ground.specs.Regions.{zeros};
ghost use Rattle.graph.specs.Graph.{some};
ghost use Rattle.kinds.specs.Kinds.{input_kind, output_kind};
ghost use Rattle.placing.specs.InTables.{Inside, PlacedAll};
ghost use Rattle.placing.specs.Marks.{placed_in, Begun};

use clearing::clear_words;
use turns::place_rows;

// How many rows are placed, and whether some row is left out: 20.
// Both are told, since the number is promised where some row is left out too.
#[derive(Clone, Copy)]
pub struct Placed {
    pub count: usize,
    pub ring: bool,
}

// The first mark of a cell: inputs and outputs count as placed.
fn first_mark(kind: u32) -> u32
    ensures { result ≡ pick (eqb kind input_kind) 1 (pick (eqb kind output_kind) 1 0) }
{
    if kind == 1 {
        return 1;
    }
    if kind == 2 {
        return 1;
    }
    0
}

// Inputs and outputs are marked.
fn mark_apart(cells: &[u32], n: usize, marks: &mut [u32])
    requires { (length cells.now ≡ 4608) × (n ≤ 512) × (marks.old ≡ zeros 1026) }
    ensures { Begun cells.now n marks.new }
{
    for i in 0..n {
        marks[i] = first_mark(cells[i * 9]);
    }
}

// Some row is not marked as placed.
fn left_out(marks: &[u32], n: usize) -> bool
    requires { n ≤ length marks.now }
    ensures { result ≡ some (λ i. not (placed_in marks.now i)) n }
{
    for k in (0..n).rev() {
        if marks[k] != 1 {
            return true;
        }
    }
    false
}

// The order of the cells of good tables, at the front of clear rows; the marks are work space, clear before and after.
pub fn place(cells: &[u32], runs: &[u32], n: usize, rows: &mut [u32], marks: &mut [u32]) -> Placed
    requires { Inside cells.now runs.now n × (rows.old ≡ zeros 512) × (marks.old ≡ zeros 1026) }
    ensures { PlacedAll cells.now runs.now n rows.new marks.new result }
{
    mark_apart(cells, n, marks);
    let count = place_rows(cells, runs, n, rows, marks);
    let ring = left_out(marks, n);
    clear_words(marks);
    Placed { count, ring }
}
