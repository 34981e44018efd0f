// The turns of a placing. Rows are looked at from the lowest on; a row that must wait is told in the mark of the row that it waits for,
// and once that one is placed, the look goes back to the lowest row that waited for it. Rows on the way are passed by their notes.
ghost use Rattle.std.specs.Prelude.{◌≡◌, ◌<◌, ◌≤◌, length, get_or};
ghost use Rattle.placing.specs.InTables.{Inside};
ghost use Rattle.placing.specs.Marks.{waited_by, on_from, note_of, noted, Going, Further};

use crate::search::open_read;

// Where a placing stands: the rows below `low` are placed or wait; `count` rows are placed.
#[derive(Clone, Copy)]
pub(crate) struct At {
    low: usize,
    count: usize,
}

// The row's note still tells that it is placed or waits.
fn still_noted(marks: &[u32], row: usize) -> bool
    requires { (length marks.now ≡ 1026) × (row < 512) × (note_of marks.now row ≤ 514) }
    ensures { result ≡ noted marks.now row }
{
    let note = marks[514 + row] as usize;
    if note == 0 {
        return false;
    }
    let at = note - 1;
    if marks[at] == 1 {
        return false;
    }
    true
}

// The mark of a row for which `row` waits too.
fn waited_by(mark: u32, row: u32) -> u32
    requires { row < 512 }
    ensures { result ≡ waited_by mark row }
{
    if mark == 0 {
        return row + 2;
    }
    if mark < row + 2 {
        return mark;
    }
    row + 2
}

// Where the look goes on once `row`, so marked, is placed.
fn on_from(mark: u32, row: u32) -> u32
    requires { (row < 512) × (mark ≡ 1 → ⊥) }
    ensures { result ≡ on_from mark row }
{
    if mark == 0 {
        return row + 1;
    }
    if row + 2 < mark {
        return row + 1;
    }
    mark - 2
}

// The row `low`, not placed yet, waits for a row that it reads, or is placed.
fn look(
    cells: &[u32],
    runs: &[u32],
    n: usize,
    rows: &mut [u32],
    marks: &mut [u32],
    low: usize,
    count: usize,
) -> At
    requires { Inside cells.now runs.now n × Going cells.now runs.now n rows.old marks.old low count × (low < n) × (get_or marks.old low 0 ≡ 1 → ⊥) }
    ensures { Going cells.now runs.now n rows.new marks.new result.low result.count × Further n low count result }
{
    let on = open_read(cells, runs, marks, low, n);
    let row = low as u32;
    if on < n {
        let new = waited_by(marks[on], row);
        marks[on] = new;
        marks[514 + low] = on as u32 + 1;
        return At {
            low: low + 1,
            count,
        };
    }
    let next = on_from(marks[low], row) as usize;
    rows[count] = row;
    marks[low] = 1;
    marks[514 + low] = 514;
    At {
        low: next,
        count: count + 1,
    }
}

// The row `low` is passed, if it is placed or its note still holds; else it is looked at.
fn turn(
    cells: &[u32],
    runs: &[u32],
    n: usize,
    rows: &mut [u32],
    marks: &mut [u32],
    low: usize,
    count: usize,
) -> At
    requires { Inside cells.now runs.now n × Going cells.now runs.now n rows.old marks.old low count × (low < n) }
    ensures { Going cells.now runs.now n rows.new marks.new result.low result.count × Further n low count result }
{
    if still_noted(marks, low) {
        return At {
            low: low + 1,
            count,
        };
    }
    if marks[low] == 1 {
        return At {
            low: low + 1,
            count,
        };
    }
    look(cells, runs, n, rows, marks, low, count)
}

// Turn after turn, until all rows are looked at; how many are placed.
pub(crate) fn place_rows(
    cells: &[u32],
    runs: &[u32],
    n: usize,
    rows: &mut [u32],
    marks: &mut [u32],
) -> usize
    requires { Inside cells.now runs.now n × Going cells.now runs.now n rows.old marks.old 0 0 }
    ensures { Going cells.now runs.now n rows.new marks.new n result }
{
    let mut low: usize = 0;
    let mut count: usize = 0;
    // The look may go back, so this is no walk over a range.
    while low < n {
        let at = turn(cells, runs, n, rows, marks, low, count);
        low = at.low;
        count = at.count;
    }
    count
}
