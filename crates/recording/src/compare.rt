// eq, ult, slt: one bit from two operands.
ghost use Rattle.std.specs.Prelude.{◌≡◌, [], ◌∷◌, ℕ, ◌+◌, ◌*◌, ◌≤◌, min, length, drop};
ghost use Rattle.loadlist.specs.Records.{rec, not_op};
ghost use Rattle.cells.specs.Records.{carry_records, below_records, eq_from, eq_made};
ghost use Rattle.recording.specs.ByKind.{low_bits, less_made};
ghost use Rattle.recording.specs.Making.{Puts, recorded, recorded_of, Room};

use crate::records::{put, put_carry, shared};

// The first carry of ult and slt is slot 0.
const FIRST_CARRY: u16 = 0;

// eq from bit 1 on: first is the slot of the differences so far.
fn eq_bits(first: u16, k: usize, a: &[u16], b: &[u16], list: &mut [u8], outs: &mut [u16]) -> usize
    requires { Room (eq_from first k (drop 1 a.now) (drop 1 b.now)) k list.old outs.old }
    ensures { recorded result list.new outs.new ≡ recorded_of (eq_from first k (drop 1 a.now) (drop 1 b.now)) k list.old outs.old }
{
    let bits = shared(a, b);
    let mut sum = first;
    let mut next = k;
    for i in 1..bits {
        let differs = put(list, next, 7, a[i], b[i]);
        sum = put(list, next + 1, 6, sum, differs);
        next += 2;
    }
    outs[0] = put(list, next, 4, sum, 0);
    next + 1 - k
}

pub(crate) fn make_eq(k: usize, a: &[u16], b: &[u16], list: &mut [u8], outs: &mut [u16]) -> usize
    requires { Room (eq_made k a.now b.now) k list.old outs.old }
    ensures { recorded result list.new outs.new ≡ recorded_of (eq_made k a.now b.now) k list.old outs.old }
{
    if shared(a, b) < 1 {
        return 0;
    }
    let first = put(list, k, 7, a[0], b[0]);
    1 + eq_bits(first, k + 1, a, b, list, outs)
}

// The carry rule over not a, b and the carry c: five records from k on.
fn put_below(list: &mut [u8], k: usize, a: u16, b: u16, c: u16) -> u16
    requires { (k + 5 ≤ 8192) × (8 * (k + 5) ≤ length list.old) }
    ensures { (result ≡ k + 4) × Puts list.old k (below_records k a b c) list.new }
{
    let other = put(list, k, 4, a, 0);
    put_carry(list, k + 1, other, b, c)
}

// slt at the top: the carry rule over a, not b and the carry c.
fn put_top(list: &mut [u8], k: usize, a: u16, b: u16, c: u16) -> u16
    requires { (k + 5 ≤ 8192) × (8 * (k + 5) ≤ length list.old) }
    ensures { (result ≡ k + 4) × Puts list.old k (rec not_op b 0 ∷ carry_records (k + 1) a k c) list.new }
{
    let other = put(list, k, 4, b, 0);
    put_carry(list, k + 1, a, other, c)
}

// The number of bits that ult's rule goes over; of slt these are below the top place of a.
fn low_bits(kind: u32, a: &[u16], b: &[u16]) -> usize
    ensures { (result ≡ low_bits kind a.now b.now) × (result ≤ min (length a.now) (length b.now)) }
{
    let bits = shared(a, b);
    if kind == 11 {
        return bits;
    }
    if bits < a.len() {
        return bits;
    }
    if 0 < bits {
        return bits - 1;
    }
    0
}

// ult, or slt: the same but for the top place.
pub(crate) fn make_less(
    kind: u32,
    k: usize,
    a: &[u16],
    b: &[u16],
    list: &mut [u8],
    outs: &mut [u16],
) -> usize
    requires { Room (less_made kind k a.now b.now 0) k list.old outs.old }
    ensures { recorded result list.new outs.new ≡ recorded_of (less_made kind k a.now b.now 0) k list.old outs.old }
{
    let low = low_bits(kind, a, b);
    let mut carry = FIRST_CARRY;
    let mut next = k;
    for i in 0..low {
        carry = put_below(list, next, a[i], b[i], carry);
        next += 5;
    }
    if low < shared(a, b) {
        outs[0] = put_top(list, next, a[low], b[low], carry);
        return next + 5 - k;
    }
    outs[0] = carry;
    next - k
}
