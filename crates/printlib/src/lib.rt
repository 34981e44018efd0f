// The C library's functions of written texts: the canonical text and full names, the answers told as numbers, with refusal number 0 where
// nothing is refused. It promises what printing and naming promise, every byte of the room included.
#![tactic(auto)]

ghost use Rattle.std.specs.Prelude.{◌≡◌};
ghost use Rattle.printing.specs.Outcome.{print_of};
ghost use Rattle.naming.specs.Names.{name_of};
ghost use Rattle.printlib.specs.Filled.{told, filled, printed_of, named_of};

use ground::Refusal;
use naming::full_name;
use printing::print_text;

// How many bytes of the room an answer takes, or why it is refused.
#[repr(C)]
#[derive(Clone, Copy)]
pub struct Wrote {
    pub length: u64,
    pub number: u32,
    pub place: u64,
}

// As `tell` of benchlib, but into the record that C is given here, whose field has its own name.
fn tell(r: Result<usize, Refusal>) -> Wrote
    ensures { result ≡ told r }
{
    match r {
        Ok(n) => Wrote {
            length: n as u64,
            number: 0,
            place: 0,
        },
        Err(g) => Wrote {
            length: 0,
            number: g.number as u32,
            place: g.place.at as u64,
        },
    }
}

// The canonical text of the netlist in three lent tables, printed into lent room: refusal 1, 15 or 24.
pub fn grackle_print(rows: &[u32], strings: &[u8], trits: &[u8], room: &mut [u8]) -> Wrote
    ensures { filled result room.new ≡ printed_of (print_of rows.now strings.now trits.now room.old) }
{
    tell(print_text(rows, strings, trits, room))
}

// The full name of the ident in a row of three lent tables, written into lent room: refusal 1, 15, 16 or 24.
pub fn grackle_name(
    rows: &[u32],
    strings: &[u8],
    trits: &[u8],
    row: usize,
    room: &mut [u8],
) -> Wrote
    ensures { filled result room.new ≡ named_of (name_of rows.now strings.now trits.now row room.old) }
{
    tell(full_name(rows, strings, trits, row, room))
}
