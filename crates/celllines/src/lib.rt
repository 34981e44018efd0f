// The lines of cells: each cell under its number, which is the sum over earlier cells of the greater of 1 and its width. The numbers and
// widths of all cells are worked out once and lent down. Operands and writing stand below it, printing above.
#![tactic(auto)]

ghost use Rattle.std.specs.Prelude.{◌≡◌, Bool, true, List, [], ◌++◌, ℕ, ◌-◌, ◌<◌, ◌≤◌, leb, length, take, drop};
ghost use Rattle.ground.specs.Lists.{every};
ghost use Rattle.ground.specs.Regions.{part};
ghost use Rattle.kinds.specs.Kinds.{kind_at};
ghost use Rattle.netlist.specs.Rules.{is_trit};
ghost use Rattle.netlist.specs.View.{cell_in, cells_in};
ghost use Rattle.writing.specs.Words.{text};
ghost use Rattle.writing.specs.Stands.{Wrote};
ghost use Rattle.operands.specs.Operands.{held_runs};
ghost use Rattle.celllines.specs.CellLines.{declared, name_text, operand_text, further_text, operands_text, cell_line, cell_lines, naming};

use decimals::put_number;
use kinds::{has_name, operands_of};
use operands::put_operand;
use quotes::put_quoted;
use references::put_option;
use words::wide;
use writing::room::{put, put_all};

// Where the keyword of each kind begins among all keywords in order, and where the last one ends; no kind has the number 0.
const STARTS: [usize; 14] = [0, 0, 5, 11, 14, 17, 20, 22, 25, 28, 31, 33, 36, 39];

// A kind's number as a byte: 0, which no kind has, where it is none.
fn kind_of(x: u32) -> u8
    ensures { (kind_at result ≡ kind_at x) × (result < 13) }
{
    if x < 13 {
        return x as u8;
    }
    0
}

fn at_least(k: u8, count: u8) -> bool
    ensures { result ≡ leb k count }
{
    k <= count
}

// The bytes of words from start to end.
fn put_part(room: &mut [u8], n: usize, words: &[u8], start: usize, end: usize) -> usize
    requires { (start ≤ end) × (end ≤ length words.now) }
    ensures { Wrote room.old n (λ k. take (end - start) (drop start words.now) ++ k) room.new result }
{
    put_all(room, n, &words[start..end])
}

// A kind's keyword.
fn put_keyword(room: &mut [u8], n: usize, kind: u8) -> usize
    requires { kind < 13 }
    ensures { Wrote room.old n (text (kind_at kind).word) room.new result }
{
    let words = b"inputoutputbufnotandorxormuxadcequltslt";
    let starts = STARTS;
    let k = kind as usize;
    put_part(room, n, words, starts[k], starts[k + 1])
}

fn put_name(room: &mut [u8], n: usize, given: bool, strings: &[u8], from: u32, size: u32) -> usize
    ensures { Wrote room.old n (name_text given (part from size strings.now)) room.new result }
{
    if given {
        let m = put(room, n, 32);
        return put_quoted(room, m, strings, from, size);
    }
    n
}

fn put_given(
    room: &mut [u8],
    n: usize,
    given: bool,
    numbers: &[u32],
    widths: &[u32],
    runs: &[u32],
    trits: &[u8],
    from: usize,
    size: u32,
) -> usize
    requires { (length runs.now ≡ 12288) × (every is_trit trits.now ≡ true) × (from < 17179869184) }
    ensures { Wrote room.old n (operand_text given numbers.now widths.now (part from size (held_runs runs.now trits.now))) room.new result }
{
    if given {
        let m = put(room, n, 32);
        return put_operand(room, m, numbers, widths, runs, trits, from, size);
    }
    n
}

// The second and third operand of a cell.
fn put_further(
    room: &mut [u8],
    n: usize,
    numbers: &[u32],
    widths: &[u32],
    count: u8,
    row: &[u32],
    runs: &[u32],
    trits: &[u8],
) -> usize
    requires { (length row.now ≡ 9) × (length runs.now ≡ 12288) × (every is_trit trits.now ≡ true) }
    ensures { Wrote room.old n (further_text numbers.now widths.now count (cell_in (naming []) (held_runs runs.now trits.now) row.now)) room.new result }
{
    let second = wide(row[5]) + wide(row[6]);
    let m = put_given(
        room,
        n,
        at_least(2, count),
        numbers,
        widths,
        runs,
        trits,
        second,
        row[7],
    );
    let third = second + wide(row[7]);
    put_given(
        room,
        m,
        at_least(3, count),
        numbers,
        widths,
        runs,
        trits,
        third,
        row[8],
    )
}

// The operands of a cell.
fn put_operands(
    room: &mut [u8],
    n: usize,
    numbers: &[u32],
    widths: &[u32],
    count: u8,
    row: &[u32],
    runs: &[u32],
    trits: &[u8],
) -> usize
    requires { (length row.now ≡ 9) × (length runs.now ≡ 12288) × (every is_trit trits.now ≡ true) }
    ensures { Wrote room.old n (operands_text numbers.now widths.now count (cell_in (naming []) (held_runs runs.now trits.now) row.now)) room.new result }
{
    let m = put_given(
        room,
        n,
        at_least(1, count),
        numbers,
        widths,
        runs,
        trits,
        wide(row[5]),
        row[6],
    );
    put_further(room, m, numbers, widths, count, row, runs, trits)
}

// A cell's number, width and keyword.
fn put_declared(room: &mut [u8], n: usize, number: u32, width: u32, kind: u8) -> usize
    requires { kind < 13 }
    ensures { Wrote room.old n (declared number width (kind_at kind).word) room.new result }
{
    let m = put(room, n, 37);
    let m = put_number(room, m, number);
    let m = put(room, m, 58);
    let m = put_number(room, m, width);
    let m = put_all(room, m, b" = ");
    put_keyword(room, m, kind)
}

// A cell's line, under its number.
fn put_cell(
    room: &mut [u8],
    n: usize,
    numbers: &[u32],
    widths: &[u32],
    number: u32,
    row: &[u32],
    strings: &[u8],
    runs: &[u32],
    trits: &[u8],
) -> usize
    requires { (length row.now ≡ 9) × (length runs.now ≡ 12288) × (every is_trit trits.now ≡ true) }
    ensures { Wrote room.old n (cell_line numbers.now widths.now number (cell_in (naming strings.now) (held_runs runs.now trits.now) row.now)) room.new result }
{
    let kind = kind_of(row[0]);
    let m = put_declared(room, n, number, row[1], kind);
    let m = put_name(room, m, has_name(kind), strings, row[2], row[3]);
    let m = put_operands(
        room,
        m,
        numbers,
        widths,
        operands_of(kind),
        row,
        runs,
        trits,
    );
    let m = put_option(room, m, b" ", row[4]);
    put(room, m, 10)
}

// The lines of all cells.
pub fn put_cells(
    room: &mut [u8],
    n: usize,
    numbers: &[u32],
    widths: &[u32],
    rows: &[u32],
    strings: &[u8],
    runs: &[u32],
    trits: &[u8],
) -> usize
    requires { (length rows.now ≡ 4608) × (length numbers.now ≤ 512) × (length runs.now ≡ 12288) × (every is_trit trits.now ≡ true) }
    ensures { Wrote room.old n (cell_lines numbers.now widths.now numbers.now (cells_in (naming strings.now) (held_runs runs.now trits.now) (length numbers.now) rows.now)) room.new result }
{
    let mut n = n;
    for i in 0..numbers.len() {
        let k = i * 9;
        n = put_cell(
            room,
            n,
            numbers,
            widths,
            numbers[i],
            &rows[k..k + 9],
            strings,
            runs,
            trits,
        );
    }
    n
}
