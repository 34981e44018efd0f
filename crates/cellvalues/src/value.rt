// The value of a cell of any kind from the bits of its operands, bit 0 first.
ghost use Rattle.std.specs.Prelude.{◌≡◌, [], ◌<◌, get_or};
ghost use Rattle.std.proofs.lemmas.List.Edits.{sets};
ghost use Rattle.cells.specs.Values.{kind_value};

use super::adc::put_adc;
use super::compare::put_compare;
use super::gates::{put_gate, put_not};
use super::lent::copy;
use super::mux::put_mux;

// Bit 0; X where there is none.
fn first(a: &[u8]) -> u8
    ensures { result ≡ get_or a.now 0 2 }
{
    if 0 < a.len() {
        return a[0];
    }
    2
}

// The kinds that have one bit for each of the operand's, by the kind's number: below 4 a copy, then not, then the gates of two.
fn put_bitwise(kind: u32, a: &[u8], b: &[u8], out: &mut [u8])
    requires { kind < 8 }
    ensures { out.new ≡ sets out.old 0 (kind_value kind a.now b.now []) }
{
    if kind < 4 {
        return copy(a, out);
    }
    if kind == 4 {
        return put_not(a, out);
    }
    put_gate(kind, a, b, out)
}

pub fn put_value(kind: u32, a: &[u8], b: &[u8], c: &[u8], out: &mut [u8])
    ensures { out.new ≡ sets out.old 0 (kind_value kind a.now b.now c.now) }
{
    if kind < 8 {
        return put_bitwise(kind, a, b, out);
    }
    if kind == 8 {
        return put_mux(first(a), b, c, out);
    }
    if kind == 9 {
        return put_adc(a, b, first(c), out);
    }
    if kind < 13 {
        return put_compare(kind, a, b, out);
    }
    copy(a, out)
}
