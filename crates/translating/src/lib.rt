// Translating: a netlist in lent tables to its load list. It promises the records that the definitions of specs/ give, their number,
// each refusal, and every lent byte, for whatever the tables hold. Recording, placing and the load list stand below it, the programs above.
#![tactic(auto)]

mod operands;
mod records;
mod rows;
mod sum;
mod tables;

ghost use Rattle.std.specs.Prelude.{◌≡◌, false, length, Ok};
ghost use Rattle.ground.specs.Regions.{zeros};
ghost use Rattle.netlist.specs.Good.{short, check_of, netlist_in};
ghost use Rattle.translating.specs.Outcome.{made, translated_of, translate_of};

use checking::{check_tables, is_short, refused};
use clearing::clear_words;
use ground::Refusal;
use pools::word_of;
use regions::{cells_of, run_trits_of, runs_of};
use tables::translate_tables;

// Good tables, taken apart.
fn translate_good(
    rows: &[u32],
    strings: &[u8],
    bits: &[u8],
    room: &mut [u8],
    work: &mut [u32],
) -> Result<usize, Refusal>
    requires { (check_of rows.now strings.now bits.now ≡ Ok tt) × (work.old ≡ zeros 8192) }
    ensures { made result room.new work.new ≡ translated_of (netlist_in rows.now strings.now bits.now) room.old work.old }
{
    let n = word_of(rows, 2);
    translate_tables(
        cells_of(rows),
        runs_of(rows),
        run_trits_of(bits),
        n,
        room,
        work,
    )
}

// Tables and work space of the fixed lengths.
fn translate_lent(
    rows: &[u32],
    strings: &[u8],
    bits: &[u8],
    room: &mut [u8],
    work: &mut [u32],
) -> Result<usize, Refusal>
    requires { (short rows.now strings.now bits.now ≡ false) × (length work.old ≡ 8192) }
    ensures { made result room.new work.new ≡ translate_of rows.now strings.now bits.now room.old work.old }
{
    clear_words(work);
    check_tables(rows, strings, bits)?;
    translate_good(rows, strings, bits, room, work)
}

// The load list of lent tables, which are checked first: 1, 15, then 20 where cells form a ring, 21 where there are more than 8,192 records,
// 24 where the room is too short for them.
pub fn translate(
    rows: &[u32],
    strings: &[u8],
    bits: &[u8],
    room: &mut [u8],
    work: &mut [u32],
) -> Result<usize, Refusal>
    ensures { made result room.new work.new ≡ translate_of rows.now strings.now bits.now room.old work.old }
{
    if is_short(rows, strings, bits) {
        return Err(refused(1));
    }
    if work.len() < 8192 {
        return Err(refused(1));
    }
    translate_lent(rows, strings, bits, room, &mut work[0..8192])
}
