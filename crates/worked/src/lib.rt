// The lines of worked texts, shared by the programs that run them. Each line of their input says one text: `\n`, `\r`, `\t` and `\\`
// stand for themselves as usual, `\xHH` for a byte, `\{N|BODY}` for BODY N times with `\#` as the number of the round, all other bytes
// for themselves. It promises that nothing is written past a room; what a line says is held by the programs' expected output.
#![tactic(auto)]

ghost use Rattle.std.specs.Prelude.{◌<◌, ◌≤◌, length};

use finding::{find, hex};
use itoa::Buffer;

// Where a room and a line stand, for programs that fill a room from a line.
#[derive(Clone, Copy)]
pub struct Spot {
    pub n: usize,
    pub at: usize,
}

// The place past a byte; a backslash takes the byte behind it along.
fn past(line: &[u8], at: usize) -> usize
    requires { at < length line.now }
    ensures { (at < result) × (result ≤ length line.now) }
{
    if line[at] == b'\\' && 2 <= line.len() - at {
        return at + 2;
    }
    at + 1
}

// The place of the next `\{` at or past `from`, or the end.
fn pattern_at(line: &[u8], from: usize) -> usize
    requires { from ≤ length line.now }
    ensures { (from ≤ result) × (result ≤ length line.now) }
{
    let mut i = from;
    while i < line.len() && !line[i..].starts_with(b"\\{") {
        i = past(line, i);
    }
    i
}

// The number that digits say; one of five digits grows no more.
fn number(digits: &[u8]) -> usize {
    digits.iter().fold(0, |n, d| {
        if n < 10000 {
            n * 10 + usize::from(hex(*d))
        } else {
            n
        }
    })
}

// A byte past the end of the room is dropped.
fn put(room: &mut [u8], n: usize, b: u8) -> usize
    requires { n ≤ length room.old }
    ensures { result ≤ length room.old }
{
    if n < room.len() {
        room[n] = b;
        return n + 1;
    }
    n
}

fn put_all(room: &mut [u8], n: usize, bytes: &[u8]) -> usize
    requires { n ≤ length room.old }
    ensures { result ≤ length room.old }
{
    let end = n + bytes.len().min(room.len() - n);
    room[n..end].copy_from_slice(&bytes[..end - n]);
    end
}

fn put_number(room: &mut [u8], n: usize, value: u64) -> usize
    requires { n ≤ length room.old }
    ensures { result ≤ length room.old }
{
    let mut digits = Buffer::new();
    put_all(room, n, digits.format(value).as_bytes())
}

// The bytes that a line without patterns says, in one round. A backslash with nothing behind it says none.
fn put_bytes(line: &[u8], room: &mut [u8], n: usize, round: u64) -> usize
    requires { n ≤ length room.old }
    ensures { result ≤ length room.old }
{
    let mut k = n;
    let mut left = line;
    while let [b, behind @ ..] = left {
        left = behind;
        match (*b, behind) {
            (b'\\', []) => {}
            (b'\\', [b'#', rest @ ..]) => {
                k = put_number(room, k, round);
                left = rest;
            }
            (b'\\', [b'x', high, low, rest @ ..]) => {
                k = put(room, k, hex(*high) * 16 + hex(*low));
                left = rest;
            }
            (b'\\', [c, rest @ ..]) => {
                k = put(room, k, escaped(*c));
                left = rest;
            }
            (b, _) => k = put(room, k, b),
        }
    }
    k
}

// The byte that a letter behind a backslash means.
fn escaped(c: u8) -> u8 {
    match c {
        b'n' => b'\n',
        b'r' => b'\r',
        b't' => b'\t',
        _ => c,
    }
}

fn put_rounds(body: &[u8], times: usize, room: &mut [u8], n: usize) -> usize
    requires { n ≤ length room.old }
    ensures { result ≤ length room.old }
{
    let mut k = n;
    for round in 0..times {
        k = put_bytes(body, room, k, round as u64);
    }
    k
}

// The text that a line says, into the room; its size.
pub fn put_text(line: &[u8], room: &mut [u8]) -> usize
    ensures { result ≤ length room.old }
{
    let mut n: usize = 0;
    let mut at: usize = 0;
    while at < line.len() {
        let open = pattern_at(line, at);
        n = put_bytes(&line[at..open], room, n, 0);
        let bar = find(line, open, b'|');
        let end = find(line, bar, b'}');
        if line.len() <= end || bar - open < 2 || end <= bar {
            return n;
        }
        let times = number(&line[open + 2..bar]);
        n = put_rounds(&line[bar + 1..end], times, room, n);
        at = end + 1;
    }
    n
}
