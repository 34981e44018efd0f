// mux: the select first, then the bits of a or of b, or X in every place.
ghost use Rattle.std.specs.Prelude.{◌≡◌};
ghost use Rattle.std.proofs.lemmas.List.Edits.{sets};
ghost use Rattle.trit.specs.Mux.{mux_bits};

use super::lent::{copy, put_x};

pub(crate) fn put_mux(s: u8, a: &[u8], b: &[u8], out: &mut [u8])
    ensures { out.new ≡ sets out.old 0 (mux_bits s a.now b.now) }
{
    if s == 1 {
        return copy(a, out);
    }
    if s == 0 {
        return copy(b, out);
    }
    put_x(a.len(), out)
}
