// adc: the sum and the next carry, six records a bit; the top bit is the last carry.
ghost use Rattle.std.specs.Prelude.{◌≡◌, [], ◌∷◌, ℕ, ◌+◌, ◌*◌, ◌≤◌, length};
ghost use Rattle.loadlist.specs.Records.{rec, xor_op};
ghost use Rattle.cells.specs.Records.{carry_records, adc_made};
ghost use Rattle.recording.specs.Making.{Puts, recorded, recorded_of, Room};

use crate::records::{put, put_carry, shared};

// The sum of a, b and the carry c: two records from k on.
fn put_sum(list: &mut [u8], k: usize, a: u16, b: u16, c: u16) -> u16
    requires { (k + 2 ≤ 8192) × (8 * (k + 2) ≤ length list.old) }
    ensures { (result ≡ k + 1) × Puts list.old k (rec xor_op a b ∷ rec xor_op k c ∷ []) list.new }
{
    let half = put(list, k, 7, a, b);
    put(list, k + 1, 7, half, c)
}

pub(crate) fn make_adc(
    k: usize,
    a: &[u16],
    b: &[u16],
    first: u16,
    list: &mut [u8],
    outs: &mut [u16],
) -> usize
    requires { Room (adc_made k a.now b.now first) k list.old outs.old }
    ensures { recorded result list.new outs.new ≡ recorded_of (adc_made k a.now b.now first) k list.old outs.old }
{
    let bits = shared(a, b);
    let mut carry = first;
    let mut next = k;
    for i in 0..bits {
        outs[i] = put_sum(list, next, a[i], b[i], carry);
        carry = put_carry(list, next + 2, a[i], b[i], carry);
        next += 6;
    }
    outs[bits] = carry;
    next - k
}
