// One record of a list, read and written byte by byte.
ghost use Rattle.std.specs.Prelude.{◌≡◌, ℕ, ◌+◌, ◌*◌, ◌/◌, ◌%◌, ◌≤◌, length, drop, get_or};
ghost use Rattle.std.proofs.lemmas.List.Edits.{sets};
ghost use Rattle.loadlist.specs.Records.{record_in, record_bytes};

use crate::Record;

// The byte at a place, and 0 past the end.
pub fn byte_at(list: &[u8], at: usize) -> u8
    ensures { result ≡ get_or list.now at 0 }
{
    list.get(at).copied().unwrap_or(0)
}

// 16 bits, the low byte first.
fn field(low: u8, high: u8) -> u16
    ensures { result ≡ low + 256 * high }
{
    u16::from_le_bytes([low, high])
}

// A record whose eight bytes are all there.
fn whole_record(list: &[u8], at: usize) -> Record
    requires { at + 8 ≤ length list.now }
    ensures { result ≡ record_in (drop at list.now) }
{
    let op = list[at + 2];
    let first = field(list[at + 4], list[at + 5]);
    let second = field(list[at + 6], list[at + 7]);
    Record { op, first, second }
}

// Record k of the list, where it is not known to be whole; a field past the list's end is 0. The test keeps 8 * k in range.
fn part_record(list: &[u8], k: usize) -> Record
    ensures { result ≡ record_in (drop (8 * k) list.now) }
{
    if list.len() / 8 < k {
        return Record {
            op: 0,
            first: 0,
            second: 0,
        };
    }
    let at = 8 * k;
    let op = byte_at(list, at + 2);
    let first = field(byte_at(list, at + 4), byte_at(list, at + 5));
    let second = field(byte_at(list, at + 6), byte_at(list, at + 7));
    Record { op, first, second }
}

// Record k of the list. Nearly every record is whole, and its bytes are then read without a test for each.
pub fn record_at(list: &[u8], k: usize) -> Record
    ensures { result ≡ record_in (drop (8 * k) list.now) }
{
    if k < list.len() / 8 {
        return whole_record(list, 8 * k);
    }
    part_record(list, k)
}

fn low(x: u16) -> u8
    ensures { result ≡ x % 256 }
{
    (x % 256) as u8
}

fn high(x: u16) -> u8
    ensures { result ≡ x / 256 }
{
    (x / 256) as u8
}

// Writes record k.
pub fn put_record(list: &mut [u8], k: usize, r: Record)
    requires { 8 * k + 8 ≤ length list.old }
    ensures { list.new ≡ sets list.old (8 * k) (record_bytes r) }
{
    let at = 8 * k;
    list[at] = 0x47;
    list[at + 1] = 0x53;
    list[at + 2] = r.op;
    list[at + 3] = 0;
    list[at + 4] = low(r.first);
    list[at + 5] = high(r.first);
    list[at + 6] = low(r.second);
    list[at + 7] = high(r.second);
}
