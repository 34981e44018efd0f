// mux: the not of the selecting bit and its xor with itself, then four records a bit. The last of the four makes the bit X where the
// selecting bit is X.
ghost use Rattle.std.specs.Prelude.{◌≡◌, [], ◌∷◌, ℕ, ◌+◌, ◌*◌, ◌≤◌, length};
ghost use Rattle.loadlist.specs.Records.{rec, and_op, or_op, xor_op};
ghost use Rattle.cells.specs.Records.{mux_from, mux_made};
ghost use Rattle.recording.specs.Making.{Puts, recorded, recorded_of, Room};

use crate::records::{put, shared};

// One bit: n is the slot of not s, x that of xor s s.
fn put_chosen(list: &mut [u8], k: usize, s: u16, n: u16, x: u16, a: u16, b: u16) -> u16
    requires { (k + 4 ≤ 8192) × (8 * (k + 4) ≤ length list.old) }
    ensures { (result ≡ k + 3) × Puts list.old k (rec and_op s a ∷ rec and_op n b ∷ rec or_op k (k + 1) ∷ rec xor_op x (k + 2) ∷ []) list.new }
{
    let taken = put(list, k, 5, s, a);
    let other = put(list, k + 1, 5, n, b);
    let either = put(list, k + 2, 6, taken, other);
    put(list, k + 3, 7, x, either)
}

fn mux_bits(
    k: usize,
    s: u16,
    n: u16,
    x: u16,
    a: &[u16],
    b: &[u16],
    list: &mut [u8],
    outs: &mut [u16],
) -> usize
    requires { Room (mux_from s n x k a.now b.now) k list.old outs.old }
    ensures { recorded result list.new outs.new ≡ recorded_of (mux_from s n x k a.now b.now) k list.old outs.old }
{
    let bits = shared(a, b);
    let mut next = k;
    for i in 0..bits {
        outs[i] = put_chosen(list, next, s, n, x, a[i], b[i]);
        next += 4;
    }
    next - k
}

pub(crate) fn make_mux(
    k: usize,
    s: u16,
    a: &[u16],
    b: &[u16],
    list: &mut [u8],
    outs: &mut [u16],
) -> usize
    requires { Room (mux_made k s a.now b.now) k list.old outs.old }
    ensures { recorded result list.new outs.new ≡ recorded_of (mux_made k s a.now b.now) k list.old outs.old }
{
    let n = put(list, k, 4, s, 0);
    let x = put(list, k + 1, 7, s, s);
    2 + mux_bits(k + 2, s, n, x, a, b, list, outs)
}
