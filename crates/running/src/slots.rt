// The slots of a list, a byte each: record k makes slot k.
ghost use Rattle.std.specs.Prelude.{◌≡◌, ℕ, ◌*◌, ◌≤◌, [], length, take, get_or};
ghost use Rattle.ground.specs.Regions.{over};
ghost use Rattle.loadlist.specs.Records.{records_in};
ghost use Rattle.loadlist.specs.Run.{slot_of, slots_from};
ghost use Rattle.running.specs.Gates.{gate_of};

use loadlist::Record;
use loadlist::records::{byte_at, record_at};

// Slot i of the first k; 0 where it is not made yet.
fn slot_at(work: &[u8], k: usize, i: usize) -> u8
    requires { k ≤ length work.now }
    ensures { result ≡ get_or (take k work.now) i 0 }
{
    if i < k {
        return work[i];
    }
    0
}

// What an operation above 4 makes of two slots.
fn gate_of(op: u8, x: u8, y: u8) -> u8
    ensures { result ≡ gate_of op x y }
{
    if op == 5 {
        return trit::and3(x, y);
    }
    if op == 6 {
        return trit::or3(x, y);
    }
    if op == 7 {
        return trit::xor3(x, y);
    }
    x
}

// What the record makes of the input bits and the first k slots. Gates of two fields come first, since most records are such.
fn slot_of(r: Record, ins: &[u8], work: &[u8], k: usize) -> u8
    requires { k ≤ length work.now }
    ensures { result ≡ slot_of r ins.now (take k work.now) }
{
    let op = r.op;
    let first = r.first as usize;
    if 4 < op {
        let second = r.second as usize;
        let x = slot_at(work, k, first);
        let y = slot_at(work, k, second);
        return gate_of(op, x, y);
    }
    if op < 3 {
        return op;
    }
    if op == 3 {
        return byte_at(ins, first);
    }
    trit::not3(slot_at(work, k, first))
}

// The first n records make the first n slots; the rest of the work space stays.
pub(crate) fn make_slots(list: &[u8], ins: &[u8], work: &mut [u8], n: usize)
    requires { n ≤ length work.old }
    ensures { work.new ≡ over n (slots_from (records_in n list.now) ins.now []) work.old }
{
    for k in 0..n {
        let r = record_at(list, k);
        let x = slot_of(r, ins, work, k);
        work[k] = x;
    }
}
