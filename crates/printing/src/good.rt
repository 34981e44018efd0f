// The whole text of good tables. Each writer cuts the regions that it needs out of the lent tables by itself.
ghost use Rattle.std.specs.Prelude.{◌≡◌, true, ◌&&◌, [], ◌≤◌, min, eqb, length, get_or};
ghost use Rattle.netlist.specs.Tables.{tables_in};
ghost use Rattle.netlist.specs.Good.{good, netlist_in};
ghost use Rattle.writing.specs.Stands.{most, Wrote};
ghost use Rattle.numbering.specs.Numbers.{numbers_by};
ghost use Rattle.celllines.specs.CellLines.{cell_lines};
ghost use Rattle.lines.specs.Lines.{meta_lines, io_lines, lines, canonical};
ghost use Rattle.printing.specs.Whole.{canonical_then, cell_widths, Ready};

use celllines::put_cells;
use iolines::put_ios;
use metalines::put_metas;
use numbering::{number_cells, take_widths};
use pools::word_of;
use regions::{
    attr_trits_of, cells_of, ios_of, members_of, metas_of, run_trits_of, runs_of, strings_of,
};
use writing::room::put;

// The lines of metadata, from the start of the room on.
fn put_meta_lines(room: &mut [u8], rows: &[u32], strings: &[u8], bits: &[u8]) -> usize
    requires { Ready rows.now strings.now bits.now }
    ensures { Wrote room.old 0 (meta_lines 0 (netlist_in rows.now strings.now bits.now).metas) room.new result }
{
    let metas = metas_of(rows);
    let members = members_of(rows);
    let strings = strings_of(strings);
    let trits = attr_trits_of(bits);
    put_metas(room, 0, metas, rows[0], strings, members, trits)
}

// The lines of I/O, whose rows name no trits.
fn put_io_lines(room: &mut [u8], n: usize, rows: &[u32], strings: &[u8]) -> usize
    requires { (26307 ≤ length rows.now) × (16384 ≤ length strings.now) × (get_or rows.now 1 0 ≤ 64) }
    ensures { Wrote room.old n (io_lines (netlist_in rows.now strings.now []).ios) room.new result }
{
    let ios = ios_of(rows);
    let strings = strings_of(strings);
    put_ios(room, n, ios, rows[1], strings)
}

// The lines of cells, under the numbers and widths of all cells.
fn put_cell_lines(
    room: &mut [u8],
    n: usize,
    rows: &[u32],
    strings: &[u8],
    bits: &[u8],
    numbers: &[u32],
    widths: &[u32],
) -> usize
    requires { Ready rows.now strings.now bits.now × (length numbers.now ≡ get_or rows.now 2 0) }
    ensures { Wrote room.old n (cell_lines numbers.now widths.now numbers.now (netlist_in rows.now strings.now bits.now).cells) room.new result }
{
    let cells = cells_of(rows);
    let runs = runs_of(rows);
    let strings = strings_of(strings);
    let trits = run_trits_of(bits);
    put_cells(room, n, numbers, widths, cells, strings, runs, trits)
}

// The lines of metadata, I/O and cells.
fn put_lines(
    room: &mut [u8],
    rows: &[u32],
    strings: &[u8],
    bits: &[u8],
    numbers: &[u32],
    widths: &[u32],
) -> usize
    requires { Ready rows.now strings.now bits.now × (widths.now ≡ cell_widths rows.now) × (numbers.now ≡ numbers_by 0 widths.now) }
    ensures { Wrote room.old 0 (lines (netlist_in rows.now strings.now bits.now)) room.new result }
{
    let n = put_meta_lines(room, rows, strings, bits);
    let n = put_io_lines(room, n, rows, strings);
    put_cell_lines(room, n, rows, strings, bits, numbers, widths)
}

// No row of metadata, I/O or cells.
fn is_bare(rows: &[u32]) -> bool
    requires { 3 ≤ length rows.now }
    ensures { result ≡ (eqb (get_or rows.now 0 0) 0 && (eqb (get_or rows.now 1 0) 0 && eqb (get_or rows.now 2 0) 0)) }
{
    if rows[0] != 0 {
        return false;
    }
    if rows[1] != 0 {
        return false;
    }
    rows[2] == 0
}

// No declarations: one LF.
fn put_text(
    room: &mut [u8],
    rows: &[u32],
    strings: &[u8],
    bits: &[u8],
    numbers: &[u32],
    widths: &[u32],
) -> usize
    requires { Ready rows.now strings.now bits.now × (widths.now ≡ cell_widths rows.now) × (numbers.now ≡ numbers_by 0 widths.now) }
    ensures { Wrote room.old 0 (canonical_then (netlist_in rows.now strings.now bits.now)) room.new result }
{
    if is_bare(rows) {
        return put(room, 0, 10);
    }
    put_lines(room, rows, strings, bits, numbers, widths)
}

// The text, of the widths of all cells, which give their numbers.
fn put_numbered(
    room: &mut [u8],
    rows: &[u32],
    strings: &[u8],
    bits: &[u8],
    widths: &[u32],
    numbers: &mut [u32],
) -> usize
    requires { Ready rows.now strings.now bits.now × (widths.now ≡ cell_widths rows.now) × (length numbers.old ≡ 512) }
    ensures { Wrote room.old 0 (canonical_then (netlist_in rows.now strings.now bits.now)) room.new result }
{
    let n = widths.len();
    number_cells(widths, &mut numbers[0..n]);
    put_text(room, rows, strings, bits, &numbers[0..n], widths)
}

// The text, in work space for the widths and numbers of all cells.
fn put_measured(
    room: &mut [u8],
    rows: &[u32],
    strings: &[u8],
    bits: &[u8],
    widths: &mut [u32],
    numbers: &mut [u32],
) -> usize
    requires { Ready rows.now strings.now bits.now × (length widths.old ≡ 512) × (length numbers.old ≡ 512) }
    ensures { Wrote room.old 0 (canonical_then (netlist_in rows.now strings.now bits.now)) room.new result }
{
    let n = word_of(rows, 2);
    take_widths(cells_of(rows), &mut widths[0..n]);
    put_numbered(room, rows, strings, bits, &widths[0..n], numbers)
}

// The text of good tables into lent room, as far as it has place.
pub(crate) fn put_good(room: &mut [u8], rows: &[u32], strings: &[u8], bits: &[u8]) -> usize
    requires { (26307 ≤ length rows.now) × (16384 ≤ length strings.now) × (393728 ≤ length bits.now) × (good (tables_in rows.now strings.now bits.now) ≡ true) }
    ensures { Wrote room.old 0 (canonical_then (netlist_in rows.now strings.now bits.now)) room.new result }
{
    let mut widths = [0u32; 512];
    let mut numbers = [0u32; 512];
    put_measured(room, rows, strings, bits, &mut widths, &mut numbers)
}

// The length of the text of good tables, which is counted where there is no room for it.
pub(crate) fn count_good(rows: &[u32], strings: &[u8], bits: &[u8]) -> usize
    requires { (26307 ≤ length rows.now) × (16384 ≤ length strings.now) × (393728 ≤ length bits.now) × (good (tables_in rows.now strings.now bits.now) ≡ true) }
    ensures { result ≡ min (length (canonical (netlist_in rows.now strings.now bits.now))) most }
{
    let mut none = [0u8; 1];
    put_good(&mut none, rows, strings, bits)
}
