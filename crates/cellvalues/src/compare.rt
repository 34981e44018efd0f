// Comparisons: eq, ult, slt, one bit each.
ghost use Rattle.std.specs.Prelude.{◌≡◌, [], ◌∷◌};
ghost use Rattle.std.proofs.lemmas.List.Edits.{sets};
ghost use Rattle.ground.specs.Choice.{pick};
ghost use Rattle.trit.specs.Wide.{clash, agree, eq_bit, ult_bit, slt_bit};
ghost use Rattle.cellvalues.specs.Picked.{compare_bit};

use super::lent::put_bit;
use words::least;

// 0 against 1.
fn clashes(a: u8, b: u8) -> bool
    ensures { result ≡ clash a b }
{
    if a == 0 {
        return b == 1;
    }
    if a == 1 {
        return b == 0;
    }
    false
}

// What is told stays, where the place is known and equal; else it is X.
fn told_at(told: u8, a: u8, b: u8) -> u8
    ensures { result ≡ pick (agree a b) told 2 }
{
    if a == b {
        if a < 2 {
            return told;
        }
    }
    2
}

// A clash is told at once, whatever X stands elsewhere.
fn eq_bit(a: &[u8], b: &[u8]) -> u8
    ensures { result ≡ eq_bit a.now b.now }
{
    let n = least(a.len(), b.len());
    let mut told: u8 = 1;
    for i in 0..n {
        if clashes(a[i], b[i]) {
            return 0;
        }
        told = told_at(told, a[i], b[i]);
    }
    told
}

fn ult_bit(a: &[u8], b: &[u8]) -> u8
    ensures { result ≡ ult_bit a.now b.now }
{
    let n = least(a.len(), b.len());
    let mut below: u8 = 0;
    for i in 0..n {
        below = trit::carry3(trit::not3(a[i]), b[i], below);
    }
    below
}

// The top place has a and not b, for there 1 is the lesser.
fn slt_bit(a: &[u8], b: &[u8]) -> u8
    ensures { result ≡ slt_bit a.now b.now }
{
    if a.len() == 0 {
        return 0;
    }
    let top = a.len() - 1;
    let n = least(top, b.len());
    let mut below: u8 = 0;
    for i in 0..n {
        below = trit::carry3(trit::not3(a[i]), b[i], below);
    }
    if b.len() <= top {
        return below;
    }
    trit::carry3(a[top], trit::not3(b[top]), below)
}

fn compare_bit(kind: u32, a: &[u8], b: &[u8]) -> u8
    ensures { result ≡ compare_bit kind a.now b.now }
{
    if kind == 10 {
        return eq_bit(a, b);
    }
    if kind == 11 {
        return ult_bit(a, b);
    }
    slt_bit(a, b)
}

pub(crate) fn put_compare(kind: u32, a: &[u8], b: &[u8], out: &mut [u8])
    ensures { out.new ≡ sets out.old 0 (compare_bit kind a.now b.now ∷ []) }
{
    put_bit(compare_bit(kind, a, b), out);
}
