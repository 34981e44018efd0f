// The C library's functions of lent tables: their check, and the lookup of a pad by its name, the answers told as numbers, with refusal
// number 0 where nothing is refused. It promises what checking promises.
#![tactic(auto)]

ghost use Rattle.std.specs.Prelude.{◌≡◌};
ghost use Rattle.netlist.specs.Good.{check_of, lookup_of};
ghost use Rattle.checklib.specs.Told.{told_check, pad_of, told_pad};

use checking::{check_tables, lookup_io};
use ground::Refusal;
use textlib::{Told, accepted, told_by};

// The I/O row of an asked name and its width, or why there is none.
#[repr(C)]
#[derive(Clone, Copy)]
pub struct Pad {
    pub row: u64,
    pub width: u32,
    pub number: u32,
    pub place: u64,
}

fn tell_check(r: Result<(), Refusal>) -> Told
    ensures { result ≡ told_check r }
{
    match r {
        Ok(()) => accepted(),
        Err(g) => told_by(g),
    }
}

// The check of three lent tables: refusal 1 or 15.
pub fn grackle_check(rows: &[u32], strings: &[u8], trits: &[u8]) -> Told
    ensures { result ≡ told_check (check_of rows.now strings.now trits.now) }
{
    tell_check(check_tables(rows, strings, trits))
}

fn pad_at(row: usize, width: u32) -> Pad
    ensures { result ≡ pad_of row width 0 0 }
{
    Pad {
        row: row as u64,
        width,
        number: 0,
        place: 0,
    }
}

fn no_pad(g: Refusal) -> Pad
    ensures { result ≡ pad_of 0 0 g.number g.place.at }
{
    Pad {
        row: 0,
        width: 0,
        number: g.number as u32,
        place: g.place.at as u64,
    }
}

fn tell_pad(r: Result<(usize, u32), Refusal>) -> Pad
    ensures { result ≡ told_pad r }
{
    match r {
        Ok((row, width)) => pad_at(row, width),
        Err(g) => no_pad(g),
    }
}

// The first I/O row of three lent tables that has the name: refusal 1, 15 or 18.
pub fn grackle_pad(rows: &[u32], strings: &[u8], trits: &[u8], name: &[u8]) -> Pad
    ensures { result ≡ told_pad (lookup_of rows.now strings.now trits.now name.now) }
{
    tell_pad(lookup_io(rows, strings, trits, name))
}
