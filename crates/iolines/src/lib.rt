// The lines of I/O. It promises that each is written as lines defines it, as far as the room goes. The tokens of the canonical text stand
// below it, the printer above.
#![tactic(auto)]

ghost use Rattle.std.specs.Prelude.{◌≡◌, true, List, [], ◌∷◌, ℕ, ◌<◌, ◌≤◌, length};
ghost use Rattle.netlist.specs.View.{io_in, ios_in};
ghost use Rattle.writing.specs.Stands.{Wrote};
ghost use Rattle.lines.specs.Lines.{io_line, io_lines};
ghost use Rattle.lines.specs.Pools.{pools};

use decimals::put_number;
use quotes::put_quoted;
use words::wide;
use writing::room::{put, put_all};

// A line of I/O.
fn put_io(room: &mut [u8], n: usize, row: &[u32], strings: &[u8]) -> usize
    requires { length row.now ≡ 3 }
    ensures { Wrote room.old n (io_line (io_in (pools strings.now [] []) row.now)) room.new result }
{
    let m = put(room, n, 38);
    let m = put_quoted(room, m, strings, row[0], row[1]);
    let m = put(room, m, 58);
    let m = put_number(room, m, row[2]);
    put_all(room, m, b" = io\n")
}

// The lines of all I/O.
pub fn put_ios(room: &mut [u8], n: usize, rows: &[u32], count: u32, strings: &[u8]) -> usize
    requires { (length rows.now ≡ 192) × (count ≤ 64) }
    ensures { Wrote room.old n (io_lines (ios_in (pools strings.now [] []) count rows.now)) room.new result }
{
    let mut n = n;
    for i in 0..count {
        let k = wide(i) * 3;
        n = put_io(room, n, &rows[k..k + 3], strings);
    }
    n
}
