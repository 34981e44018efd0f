// Lent slices: the shorter of two lengths, a copy, one bit put at the front.
ghost use Rattle.std.specs.Prelude.{◌≡◌, [], ◌∷◌, min, replicate};
ghost use Rattle.std.proofs.lemmas.List.Edits.{sets};

use words::least;

// The bits as they are: buf and output.
pub(crate) fn copy(a: &[u8], out: &mut [u8])
    ensures { out.new ≡ sets out.old 0 a.now }
{
    let n = least(a.len(), out.len());
    for i in 0..n {
        out[i] = a[i];
    }
}

// X, so often.
pub(crate) fn put_x(size: usize, out: &mut [u8])
    ensures { out.new ≡ sets out.old 0 (replicate size 2) }
{
    let n = least(size, out.len());
    for i in 0..n {
        out[i] = 2;
    }
}

pub(crate) fn put_bit(x: u8, out: &mut [u8])
    ensures { out.new ≡ sets out.old 0 (x ∷ []) }
{
    if out.len() == 0 {
        return;
    }
    out[0] = x;
}
