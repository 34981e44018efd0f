// The check of tables (15) and the lookup of I/O (18). It promises that lent tables are called good exactly where they are the layout
// of a valid netlist, and that a lookup gives the first I/O row of the asked name. The checks of metadata and of cells stand below it;
// whatever takes tables stands above.
#![tactic(auto)]

pub mod ios;
pub mod names;
pub mod parts;

ghost use Rattle.std.specs.Prelude.{◌≡◌, false, ◌*◌, ◌≤◌, length};
ghost use Rattle.ground.specs.Refusals.{at, refusal};
ghost use Rattle.netlist.specs.Good.{good, short, check_of, lookup_of, io_from};
ghost use Rattle.netlist.specs.Tables.{tables_in};
ghost use Rattle.netlist.specs.View.{ios_in};
ghost use Rattle.checking.specs.Names.{IosNamed};
ghost use Rattle.checking.specs.Parts.{metas_upto, ios_upto, cells_upto, strings_alone};
ghost use Rattle.checking.specs.Walk.{upto_of};

use crate::names::io_named;
use crate::parts::{cells_part, ios_part, metas_part};
use blanks::no_bytes;
use ground::{Place, Refusal};
use pools::word_of;
use regions::{
    attr_trits_of, cells_of, ios_of, members_of, metas_of, run_trits_of, runs_of, strings_of,
};

// The refusal of lent slices as a whole, which has no place.
pub fn refused(number: u8) -> Refusal
    ensures { result ≡ refusal number (at 0) }
{
    let place = Place { at: 0 };
    Refusal { number, place }
}

// The metadata of the tables. Each part cuts out its own regions, so that few are in hand at once.
fn metas_region(rows: &[u32], bits: &[u8]) -> Option<usize>
    requires { (26307 ≤ length rows.now) × (393728 ≤ length bits.now) }
    ensures { (result ≡ metas_upto rows.now bits.now) × (upto_of result ≤ 16384) }
{
    metas_part(
        metas_of(rows),
        members_of(rows),
        attr_trits_of(bits),
        word_of(rows, 0),
    )
}

// The I/O rows, whose names begin at s.
fn ios_region(rows: &[u32], strings: &[u8], s: usize) -> Option<usize>
    requires { (26307 ≤ length rows.now) × (length strings.now ≡ 16384) × (s ≤ 16384) }
    ensures { (result ≡ ios_upto rows.now strings.now s) × (upto_of result ≤ 16384) }
{
    ios_part(ios_of(rows), strings, word_of(rows, 1), s)
}

// The cells, whose names begin at s.
fn cells_region(rows: &[u32], strings: &[u8], bits: &[u8], s: usize) -> Option<usize>
    requires { (26307 ≤ length rows.now) × (length strings.now ≡ 16384) × (393728 ≤ length bits.now) × (s ≤ 16384) }
    ensures { result ≡ cells_upto rows.now strings.now bits.now s }
{
    cells_part(
        cells_of(rows),
        runs_of(rows),
        run_trits_of(bits),
        strings,
        word_of(rows, 2),
        word_of(rows, 0),
        s,
    )
}

// Whether the tables in slices that are long enough are good.
fn tables_good(rows: &[u32], strings: &[u8], bits: &[u8]) -> bool
    requires { (26307 ≤ length rows.now) × (16384 ≤ length strings.now) × (393728 ≤ length bits.now) }
    ensures { result ≡ good (tables_in rows.now strings.now bits.now) }
{
    let text = strings_of(strings);
    let Some(s) = metas_region(rows, bits) else {
        return false;
    };
    let Some(t) = ios_region(rows, text, s) else {
        return false;
    };
    let Some(x) = cells_region(rows, text, bits, t) else {
        return false;
    };
    no_bytes(text, x)
}

// Whether one of lent tables is shorter than tables are.
pub fn is_short(rows: &[u32], strings: &[u8], bits: &[u8]) -> bool
    ensures is { result ≡ short rows.now strings.now bits.now }
    ensures long { result ≡ false → (26307 ≤ length rows.now) × (16384 ≤ length strings.now) × (393728 ≤ length bits.now) }
{
    if rows.len() < 26307 {
        return true;
    }
    if strings.len() < 16384 {
        return true;
    }
    bits.len() < 393728
}

// The check of lent tables: 1 where one is short, 15 where they aren't good.
pub fn check_tables(rows: &[u32], strings: &[u8], bits: &[u8]) -> Result<(), Refusal>
    ensures { result ≡ check_of rows.now strings.now bits.now }
{
    if is_short(rows, strings, bits) {
        return Err(refused(1));
    }
    if tables_good(rows, strings, bits) {
        return Ok(());
    }
    Err(refused(15))
}

// The first of n I/O rows that has the name.
fn find_io(ios: &[u32], strings: &[u8], n: usize, name: &[u8]) -> Result<(usize, u32), Refusal>
    requires { IosNamed strings.now n ios.now }
    ensures { result ≡ io_from (ios_in (strings_alone strings.now) n ios.now) 0 name.now }
{
    for i in 0..n {
        if io_named(ios, strings, i, name) {
            return Ok((i, ios[i * 3 + 2]));
        }
    }
    Err(refused(18))
}

// The lookup of an I/O row by its name in lent tables, which are checked first: 1, 15, then 18 where no row has the name.
pub fn lookup_io(
    rows: &[u32],
    strings: &[u8],
    bits: &[u8],
    name: &[u8],
) -> Result<(usize, u32), Refusal>
    ensures { result ≡ lookup_of rows.now strings.now bits.now name.now }
{
    check_tables(rows, strings, bits)?;
    find_io(ios_of(rows), strings_of(strings), word_of(rows, 1), name)
}
