// The last step of a reading whose pieces all resolve: numbers become rows, and notes become the rows of the layout.
ghost use Rattle.std.specs.Prelude.{◌≡◌, ◌<◌, ◌≤◌, length, set};
ghost use Rattle.settling.specs.Settling.{MetasGiven, SettlesMetas, IosGiven, SettlesIos, CellsGiven, SettlesCells};
ghost use Rattle.noting.specs.Noted.{metas_in, ios_in, cells_in, runs_in, cell_map_in};
ghost use Rattle.resolving.specs.Resolving.{RowsRuns};
ghost use Rattle.finishing.specs.Finish.{Kept, Finishing, Finishes};

use noting::Tally;
use rowruns::row_runs;
use settling::{settle_cells, settle_ios, settle_metas};

fn word(x: usize) -> u32
    requires { x < 4294967296 }
    ensures { result ≡ x }
{
    x as u32
}

// The numbers of rows, at the front of the rows.
fn put_counts(rows: &mut [u32], metas: usize, ios: usize, cells: usize)
    requires { (3 ≤ length rows.old) × (metas ≤ 512) × (ios ≤ 512) × (cells ≤ 512) }
    ensures { rows.new ≡ set (set (set rows.old 0 metas) 1 ios) 2 cells }
{
    rows[0] = word(metas);
    rows[1] = word(ios);
    rows[2] = word(cells);
}

// The numbers in the run rows become rows.
fn row_all_runs(rows: &mut [u32], work: &[u32], n: usize)
    requires { (length rows.old ≡ 26307) × (65536 ≤ length work.now) × (n ≤ 4096) }
    ensures { Kept 14019 12288 rows.old rows.new × RowsRuns (cell_map_in work.now) n (runs_in rows.old) (runs_in rows.new) }
{
    row_runs(&work[0..65536], &mut rows[14019..26307], n);
}

fn settle_all_metas(text: &[u8], rows: &mut [u32], strings: &mut [u8], n: usize) -> usize
    requires { (length rows.old ≡ 26307) × MetasGiven text.now n (metas_in rows.old) × (length strings.old ≡ 16384) }
    ensures { Kept 3 8192 rows.old rows.new × SettlesMetas text.now n (metas_in rows.old) strings.old (metas_in rows.new) strings.new result }
{
    settle_metas(text, &mut rows[3..8195], n, strings)
}

fn settle_all_ios(
    text: &[u8],
    rows: &mut [u32],
    strings: &mut [u8],
    n: usize,
    first: usize,
) -> usize
    requires { (length rows.old ≡ 26307) × IosGiven text.now n first (ios_in rows.old) × (length strings.old ≡ 16384) }
    ensures { Kept 9219 192 rows.old rows.new × SettlesIos text.now n first (ios_in rows.old) strings.old (ios_in rows.new) strings.new result }
{
    settle_ios(text, &mut rows[9219..9411], n, strings, first)
}

fn settle_all_cells(
    text: &[u8],
    rows: &mut [u32],
    strings: &mut [u8],
    n: usize,
    first: usize,
) -> usize
    requires { (length rows.old ≡ 26307) × CellsGiven text.now n first (cells_in rows.old) × (length strings.old ≡ 16384) }
    ensures { Kept 9411 4608 rows.old rows.new × SettlesCells text.now n first (cells_in rows.old) strings.old (cells_in rows.new) strings.new result }
{
    settle_cells(text, &mut rows[9411..14019], n, strings, first)
}

pub fn finish(text: &[u8], rows: &mut [u32], strings: &mut [u8], work: &[u32], n: Tally)
    requires { Finishing text.now n rows.old work.now × (length strings.old ≡ 16384) }
    ensures { Finishes text.now n rows.old strings.old work.now rows.new strings.new }
{
    let metas = n.metas;
    let ios = n.ios;
    let cells = n.cells;
    row_all_runs(rows, work, n.runs);
    let first = settle_all_metas(text, rows, strings, metas);
    let next = settle_all_ios(text, rows, strings, ios, first);
    settle_all_cells(text, rows, strings, cells, next);
    put_counts(rows, metas, ios, cells);
}
