// The lines of a listing: a record in hex, and the records of a list told one after the other, read through the record reader. It promises
// the bytes of each line; no contract can say what is written. Load list and record reader stand below it, answering and the
// listing above.
#![tactic(auto)]

ghost use Rattle.std.specs.Prelude.{◌≡◌, ℕ, ◌<◌, ◌/◌, ◌%◌};
ghost use Rattle.hexlines.specs.Lines.{digit_of, line_of};

use loadlist::Record;
use records::{first, is_left, moved, record_of};
use std::io;
use std::io::Write;

fn digit(x: u8) -> u8
    requires { x < 16 }
    ensures { result ≡ digit_of x }
{
    if x < 10 {
        return 48 + x;
    }
    87 + x
}

fn high(x: u8) -> u8
    ensures { result ≡ digit_of (x / 16) }
{
    digit(x / 16)
}

fn low(x: u8) -> u8
    ensures { result ≡ digit_of (x % 16) }
{
    digit(x % 16)
}

// The eight bytes of a record in hex, then LF.
pub fn line_of(r: Record) -> [u8; 17]
    ensures { result ≡ line_of r }
{
    let [a, b] = r.first.to_le_bytes();
    let [c, d] = r.second.to_le_bytes();
    [
        b'4',
        b'7',
        b'5',
        b'3',
        high(r.op),
        low(r.op),
        b'0',
        b'0',
        high(a),
        low(a),
        high(b),
        low(b),
        high(c),
        low(c),
        high(d),
        low(d),
        b'\n',
    ]
}

// The records of a list, a line each.
pub fn tell_list<W: Write>(to: &mut W, list: &[u8]) -> io::Result<()> {
    let mut reader = first(list);
    while is_left(reader) {
        to.write_all(&line_of(record_of(reader)))?;
        reader = moved(reader);
    }
    Ok(())
}
