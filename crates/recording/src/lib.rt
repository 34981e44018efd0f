// The records of a cell, written into a lent list, and the slots of its bits. It promises what `cells` says that each kind makes, every
// lent byte included. Cells and the load list stand below it; translating above.
#![tactic(auto)]

mod adc;
mod buffer;
mod compare;
mod gates;
mod mux;
mod records;

ghost use Rattle.std.specs.Prelude.{◌≡◌};
ghost use Rattle.cells.specs.Records.{kind_made};
ghost use Rattle.recording.specs.ByKind.{copied};
ghost use Rattle.recording.specs.Making.{recorded, recorded_of, Room};

use adc::make_adc;
use buffer::make_buf;
use compare::{make_eq, make_less};
use gates::{make_gate, make_not};
use mux::make_mux;
use records::first_of;

// The kinds that have no record: those before not, and any number behind slt.
fn is_copied(kind: u32) -> bool
    ensures { result ≡ copied kind }
{
    if kind < 4 {
        return true;
    }
    12 < kind
}

// The records of a cell of the kind, whose operands have the slots a, b, c, from record k on; the slots of its bits from the front of
// outs on; and the number of its records. It asks for room for these, and that no slot passes 8,191.
pub fn make(
    kind: u32,
    k: usize,
    a: &[u16],
    b: &[u16],
    c: &[u16],
    list: &mut [u8],
    outs: &mut [u16],
) -> usize
    requires { Room (kind_made kind k a.now b.now c.now) k list.old outs.old }
    ensures { recorded result list.new outs.new ≡ recorded_of (kind_made kind k a.now b.now c.now) k list.old outs.old }
{
    if is_copied(kind) {
        return make_buf(k, a, list, outs);
    }
    if kind == 4 {
        return make_not(k, a, list, outs);
    }
    // and, or, xor have the numbers of their operations
    if kind < 8 {
        return make_gate(kind as u8, k, a, b, list, outs);
    }
    if kind == 8 {
        return make_mux(k, first_of(a), b, c, list, outs);
    }
    if kind == 9 {
        return make_adc(k, a, b, first_of(c), list, outs);
    }
    if kind == 10 {
        return make_eq(k, a, b, list, outs);
    }
    make_less(kind, k, a, b, list, outs)
}
