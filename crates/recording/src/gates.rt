// not, and, or, xor: one record a bit.
ghost use Rattle.std.specs.Prelude.{◌≡◌};
ghost use Rattle.cells.specs.Records.{not_made, gate_made};
ghost use Rattle.recording.specs.Making.{recorded, recorded_of, Room};

use crate::records::{put, shared};

pub(crate) fn make_not(k: usize, a: &[u16], list: &mut [u8], outs: &mut [u16]) -> usize
    requires { Room (not_made k a.now) k list.old outs.old }
    ensures { recorded result list.new outs.new ≡ recorded_of (not_made k a.now) k list.old outs.old }
{
    let mut next = k;
    for i in 0..a.len() {
        outs[i] = put(list, next, 4, a[i], 0);
        next += 1;
    }
    next - k
}

// The gate of an operation: and, or, xor.
pub(crate) fn make_gate(
    op: u8,
    k: usize,
    a: &[u16],
    b: &[u16],
    list: &mut [u8],
    outs: &mut [u16],
) -> usize
    requires { Room (gate_made op k a.now b.now) k list.old outs.old }
    ensures { recorded result list.new outs.new ≡ recorded_of (gate_made op k a.now b.now) k list.old outs.old }
{
    let n = shared(a, b);
    let mut next = k;
    for i in 0..n {
        outs[i] = put(list, next, op, a[i], b[i]);
        next += 1;
    }
    next - k
}
