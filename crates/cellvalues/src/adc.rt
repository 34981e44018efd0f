// adc: a sum bit for each place, and the last carry on top. An X goes as far as the carry rule takes it, and no further.
ghost use Rattle.std.specs.Prelude.{◌≡◌};
ghost use Rattle.std.proofs.lemmas.List.Edits.{sets};
ghost use Rattle.trit.specs.Wide.{adc_bits};

use words::least;

pub(crate) fn put_adc(a: &[u8], b: &[u8], c: u8, out: &mut [u8])
    ensures { out.new ≡ sets out.old 0 (adc_bits a.now b.now c) }
{
    let n = least(least(a.len(), b.len()), out.len());
    let mut carry = c;
    for i in 0..n {
        out[i] = trit::xor3(trit::xor3(a[i], b[i]), carry);
        carry = trit::carry3(a[i], b[i], carry);
    }
    if out.len() <= n {
        return;
    }
    out[n] = carry;
}
