// The test of what a caller lends.
ghost use Rattle.std.specs.Prelude.{◌≡◌, Bool, ltb};
ghost use Rattle.ground.specs.Lists.{every};

// No byte is above 2.
pub(crate) fn all_trits(bits: &[u8]) -> bool
    ensures { result ≡ every (λ x. ltb x 3) bits.now }
{
    for i in 0..bits.len() {
        if 3 <= bits[i] {
            return false;
        }
    }
    true
}
