// The check of a load list: record after record, with the numbers that the next input and output must have. It promises, for every list,
// the place of its first bad record, or its numbers of inputs and outputs, as the definitions of loadlist give them. The run stands above it.
#![tactic(auto)]

ghost use Rattle.std.specs.Prelude.{◌≡◌, ◌&&◌, ◌+◌, ◌*◌, ◌≤◌, ◌<◌, ltb, drop};
ghost use Rattle.loadlist.specs.Check.{marked, is_whole, first_fits, second_fits, fits, good_record, counted, listed_of};

use listcount::record_count;
use loadlist::Record;
use loadlist::records::{byte_at, record_at};

// The mark and the byte that is always 0.
fn marked_at(list: &[u8], k: usize) -> bool
    requires { k ≤ 8192 }
    ensures { result ≡ marked (drop (8 * k) list.now) }
{
    let at = 8 * k;
    if byte_at(list, at) != 0x47 {
        return false;
    }
    if byte_at(list, at + 1) != 0x53 {
        return false;
    }
    byte_at(list, at + 3) == 0
}

// Eight bytes are there.
fn whole_at(list: &[u8], k: usize) -> bool
    requires { k ≤ 8192 }
    ensures { result ≡ is_whole (drop (8 * k) list.now) }
{
    8 * k + 8 <= list.len()
}

fn first_fits(r: Record, k: usize, inputs: usize) -> bool
    ensures { result ≡ first_fits r k inputs }
{
    if r.op < 3 {
        return r.first == 0;
    }
    let first = r.first as usize;
    if r.op == 3 {
        return first == inputs;
    }
    first < k
}

fn second_fits(r: Record, k: usize, outputs: usize) -> bool
    ensures { result ≡ second_fits r k outputs }
{
    if r.op <= 4 {
        return r.second == 0;
    }
    let second = r.second as usize;
    if r.op == 8 {
        return second == outputs;
    }
    second < k
}

// Both fields name earlier slots.
fn both_earlier(r: Record, k: usize) -> bool
    ensures { result ≡ (ltb r.first k && ltb r.second k) }
{
    let first = r.first as usize;
    let second = r.second as usize;
    if first < k {
        return second < k;
    }
    false
}

fn known_fits(r: Record, k: usize, inputs: usize, outputs: usize) -> bool
    ensures { result ≡ fits r k inputs outputs }
{
    if r.op <= 8 {
        if first_fits(r, k, inputs) {
            return second_fits(r, k, outputs);
        }
    }
    false
}

// A known operation, with the fields that it must have. Gates of two fields are asked for first, since most records are such.
fn fields_fit(r: Record, k: usize, inputs: usize, outputs: usize) -> bool
    ensures { result ≡ fits r k inputs outputs }
{
    if 4 < r.op {
        if r.op < 8 {
            return both_earlier(r, k);
        }
    }
    known_fits(r, k, inputs, outputs)
}

fn good_record(list: &[u8], k: usize, inputs: usize, outputs: usize) -> bool
    requires { k ≤ 8192 }
    ensures { result ≡ good_record (drop (8 * k) list.now) k inputs outputs }
{
    if k >= 8192 {
        return false;
    }
    if whole_at(list, k) {
        if marked_at(list, k) {
            return fields_fit(record_at(list, k), k, inputs, outputs);
        }
    }
    false
}

// One more where the record has the operation.
fn counted_with(op: u8, r: Record, n: usize) -> usize
    requires { n ≤ 8192 }
    ensures { (result ≡ counted op r n) × (result ≤ n + 1) }
{
    if r.op == op {
        return n + 1;
    }
    n
}

// The check: the first bad record's place, or how many inputs and outputs the list has.
pub fn check(list: &[u8]) -> Result<(usize, usize), usize>
    ensures { result ≡ listed_of list.now }
{
    let n = record_count(list);
    let mut inputs: usize = 0;
    let mut outputs: usize = 0;
    for k in 0..n {
        if !good_record(list, k, inputs, outputs) {
            return Err(8 * k);
        }
        let r = record_at(list, k);
        inputs = counted_with(3, r, inputs);
        outputs = counted_with(8, r, outputs);
    }
    Ok((inputs, outputs))
}
