// The search for a row that is read and not placed yet.
ghost use Rattle.std.specs.Prelude.{◌≡◌, ◌*◌, ◌<◌, ◌≤◌, length, get_or};
ghost use Rattle.placing.specs.InTables.{run_read, reads_in, Inside};
ghost use Rattle.placing.specs.Marks.{placed_in, first_open};

// The row that run k reads, if it is not placed; else n.
fn open_run(runs: &[u32], marks: &[u32], k: usize, n: usize) -> usize
    requires { (length runs.now ≡ 12288) × (k < 4096) × (n ≤ length marks.now) × (get_or runs.now (k * 3) 0 ≤ n) }
    ensures { result ≡ first_open n (placed_in marks.now) (run_read runs.now k) }
{
    let word = runs[k * 3] as usize;
    if word == 0 {
        return n;
    }
    let row = word - 1;
    if marks[row] == 1 {
        return n;
    }
    row
}

// The first row that the cell `row` reads and that is not placed; n where all are.
pub(crate) fn open_read(cells: &[u32], runs: &[u32], marks: &[u32], row: usize, n: usize) -> usize
    requires { Inside cells.now runs.now n × (length marks.now ≡ 1026) × (row < n) }
    ensures { result ≡ first_open n (placed_in marks.now) (reads_in cells.now runs.now row) }
{
    let at = row * 9;
    let a = cells[at + 6] as usize;
    let b = cells[at + 7] as usize;
    let c = cells[at + 8] as usize;
    let from = cells[at + 5] as usize;
    let end = from + (a + b + c);
    for k in from..end {
        let x = open_run(runs, marks, k, n);
        if x < n {
            return x;
        }
    }
    n
}
