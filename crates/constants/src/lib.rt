// Constants: the trits that the characters of a constant mean, copied into lent trits. It promises those that the definitions of signs
// give. Laying and the reading of attributes stand above it.
#![tactic(auto)]

ghost use Rattle.std.specs.Prelude.{◌≡◌, map, ◌+◌, ◌≤◌, length};
ghost use Rattle.std.proofs.lemmas.List.Edits.{sets};
ghost use Rattle.ground.specs.Regions.{part};
ghost use Rattle.signs.specs.Bytes.{trit_of};

use signs::classes::Classes;

// 0, 1, and 2 for X.
fn trit_of(t: &Classes, b: u8) -> u8
    ensures { result ≡ trit_of b }
{
    if t.class_at(b) == 6 {
        return 2;
    }
    if b < 48 {
        return 0;
    }
    b - 48
}

// The trits that `size` bytes of the text mean, from the place `at` of the run trits on.
pub fn copy_trits(t: &Classes, text: &[u8], from: usize, size: usize, trits: &mut [u8], at: usize)
    requires { (from + size ≤ length text.now) × (at + size ≤ length trits.old) }
    ensures { trits.new ≡ sets trits.old at (map trit_of (part from size text.now)) }
{
    for i in 0..size {
        trits[at + i] = trit_of(t, text[from + i]);
    }
}
