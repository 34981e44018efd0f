// The lookup of I/O over structs: a pad tells where its name lies, how long it is, and the width. It promises the first pad of a lent slice
// whose name equals the asked one, and so document 01's lookup in lent tables: a slice made of their I/O rows is searched. The check of
// tables stands below it.
#![tactic(auto)]

ghost use Rattle.std.specs.Prelude.{◌≡◌, ℕ, ◌+◌, ◌*◌, ◌≤◌, ◌<◌, length, drop};
ghost use Rattle.ground.specs.Choice.{pick};
ghost use Rattle.netlist.specs.Good.{lookup_of, io_from};
ghost use Rattle.netlist.specs.View.{ios_in};
ghost use Rattle.checking.specs.Names.{IosNamed};
ghost use Rattle.checking.specs.Parts.{strings_alone};
ghost use Rattle.pads.specs.Pads.{pad_in, pads_in, pad_named, first_pad};

use checking::{check_tables, refused};
use comparing::same_bytes;
use ground::Refusal;
use pools::word_of;
use regions::{ios_of, strings_of};
use words::wide;

#[derive(Clone, Copy)]
pub struct Pad {
    pub start: u32,
    pub length: u32,
    pub width: u32,
}

// Whether the pad's name lies in the strings and is the asked one.
fn pad_named(strings: &[u8], pad: Pad, name: &[u8]) -> bool
    ensures { result ≡ pad_named strings.now pad name.now }
{
    let start = wide(pad.start);
    let end = start + wide(pad.length);
    if strings.len() < end {
        return false;
    }
    same_bytes(&strings[start..end], name)
}

// The row where its pad has the name, else what was found behind it.
fn found_at(found: usize, row: usize, strings: &[u8], pad: Pad, name: &[u8]) -> usize
    ensures { result ≡ pick (pad_named strings.now pad name.now) row found }
{
    if pad_named(strings, pad, name) {
        return row;
    }
    found
}

// The first pad of a lent slice that has the name, or how many pads there are. It goes from the last pad to the first.
pub fn find_pad(strings: &[u8], pads: &[Pad], name: &[u8]) -> usize
    ensures { result ≡ first_pad strings.now name.now pads.now }
{
    let mut found = pads.len();
    for row in (0..pads.len()).rev() {
        found = found_at(found, row, strings, pads[row], name);
    }
    found
}

// The first pad of an array that has the name, or 64: the array is lent as a slice.
fn find_among(strings: &[u8], pads: [Pad; 64], name: &[u8]) -> usize
    ensures { result ≡ first_pad strings.now name.now pads }
{
    find_pad(strings, &pads, name)
}

// A row of the I/O region.
fn pad_at(ios: &[u32], row: usize) -> Pad
    requires { row * 3 + 3 ≤ length ios.now }
    ensures { result ≡ pad_in (drop (row * 3) ios.now) }
{
    let at = row * 3;
    Pad {
        start: ios[at],
        length: ios[at + 1],
        width: ios[at + 2],
    }
}

// All rows of the I/O region, as many as Room allows.
fn pads_of(ios: &[u32]) -> [Pad; 64]
    requires { length ios.now ≡ 192 }
    ensures { result ≡ pads_in 64 ios.now }
{
    let blank = Pad {
        start: 0,
        length: 0,
        width: 0,
    };
    let mut pads = [blank; 64];
    for i in 0..64 {
        pads[i] = pad_at(ios, i);
    }
    pads
}

// The first of n I/O rows that has the name; a row behind them is none.
fn found_in(ios: &[u32], strings: &[u8], n: usize, name: &[u8]) -> Result<(usize, u32), Refusal>
    requires { (length ios.now ≡ 192) × IosNamed strings.now n ios.now }
    ensures { result ≡ io_from (ios_in (strings_alone strings.now) n ios.now) 0 name.now }
{
    let pads = pads_of(ios);
    let row = find_among(strings, pads, name);
    if row < n {
        let pad = pads[row];
        return Ok((row, pad.width));
    }
    Err(refused(18))
}

// The lookup of an I/O row by its name in lent tables, which are checked first: 1, 15, then 18 where no row has the name.
pub fn lookup_pad(
    rows: &[u32],
    strings: &[u8],
    bits: &[u8],
    name: &[u8],
) -> Result<(usize, u32), Refusal>
    ensures { result ≡ lookup_of rows.now strings.now bits.now name.now }
{
    check_tables(rows, strings, bits)?;
    found_in(ios_of(rows), strings_of(strings), word_of(rows, 1), name)
}
