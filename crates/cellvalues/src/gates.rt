// Gates, bit by bit: not, and, or, xor.
ghost use Rattle.std.specs.Prelude.{◌≡◌};
ghost use Rattle.std.proofs.lemmas.List.Edits.{sets};
ghost use Rattle.trit.specs.Wide.{not_bits, pairs};
ghost use Rattle.cellvalues.specs.Picked.{gate_of};

use words::least;

pub(crate) fn put_not(a: &[u8], out: &mut [u8])
    ensures { out.new ≡ sets out.old 0 (not_bits a.now) }
{
    let n = least(a.len(), out.len());
    for i in 0..n {
        out[i] = trit::not3(a[i]);
    }
}

fn gate_bit(kind: u32, a: u8, b: u8) -> u8
    ensures { result ≡ gate_of kind a b }
{
    if kind == 5 {
        return trit::and3(a, b);
    }
    if kind == 6 {
        return trit::or3(a, b);
    }
    trit::xor3(a, b)
}

pub(crate) fn put_gate(kind: u32, a: &[u8], b: &[u8], out: &mut [u8])
    ensures { out.new ≡ sets out.old 0 (pairs (gate_of kind) a.now b.now) }
{
    let n = least(least(a.len(), b.len()), out.len());
    for i in 0..n {
        out[i] = gate_bit(kind, a[i], b[i]);
    }
}
