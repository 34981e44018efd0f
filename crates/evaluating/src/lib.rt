// Evaluating: a netlist and a byte for each input bit to a byte for each output bit. It promises the output bits of the netlist's
// settled setting, and each refusal, as the definitions of specs/ give them. Cells and placing stand below it, the programs above.
#![tactic(auto)]

pub mod good;
mod settle;

ghost use Rattle.std.specs.Prelude.{◌≡◌, true, ◌≤◌, length};
ghost use Rattle.ground.specs.Regions.{zeros};
ghost use Rattle.netlist.specs.Tables.{tables_in};
ghost use Rattle.netlist.specs.Good.{good, netlist_in};
ghost use Rattle.evaluating.specs.Outcome.{made, evaluated_of, evaluate_of};

use checking::{check_tables, is_short, refused};
use clearing::clear_words;
use good::evaluate_tables;
use ground::Refusal;
use pools::word_of;
use regions::{cells_of, run_trits_of, runs_of};

// The evaluation of good tables, cut into their regions.
fn evaluate_good(
    rows: &[u32],
    strings: &[u8],
    bits: &[u8],
    ins: &[u8],
    outs: &mut [u8],
    work: &mut [u32],
) -> Result<usize, Refusal>
    requires { (26307 ≤ length rows.now) × (16384 ≤ length strings.now) × (393728 ≤ length bits.now) × (good (tables_in rows.now strings.now bits.now) ≡ true) × (work.old ≡ zeros 8192) }
    ensures { made result outs.new work.new ≡ evaluated_of (netlist_in rows.now strings.now bits.now) ins.now outs.old work.old }
{
    evaluate_tables(
        cells_of(rows),
        runs_of(rows),
        run_trits_of(bits),
        word_of(rows, 2),
        ins,
        outs,
        work,
    )
}

// The evaluation in work space of its exact length, with tables that are long enough.
fn evaluate_in(
    rows: &[u32],
    strings: &[u8],
    bits: &[u8],
    ins: &[u8],
    outs: &mut [u8],
    work: &mut [u32],
) -> Result<usize, Refusal>
    requires { (26307 ≤ length rows.now) × (16384 ≤ length strings.now) × (393728 ≤ length bits.now) × (length work.old ≡ 8192) }
    ensures { made result outs.new work.new ≡ evaluate_of rows.now strings.now bits.now ins.now outs.old work.old }
{
    clear_words(work);
    check_tables(rows, strings, bits)?;
    evaluate_good(rows, strings, bits, ins, outs, work)
}

// The evaluation: a byte for each output bit, or a refusal 1, 15, 20, 23 or 24.
pub fn evaluate(
    rows: &[u32],
    strings: &[u8],
    bits: &[u8],
    ins: &[u8],
    outs: &mut [u8],
    work: &mut [u32],
) -> Result<usize, Refusal>
    ensures { made result outs.new work.new ≡ evaluate_of rows.now strings.now bits.now ins.now outs.old work.old }
{
    if is_short(rows, strings, bits) {
        return Err(refused(1));
    }
    if work.len() < 8192 {
        return Err(refused(1));
    }
    evaluate_in(rows, strings, bits, ins, outs, &mut work[0..8192])
}
