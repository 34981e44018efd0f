// The run of a load list: the slots that its records make, and its outputs. It promises the outcome of loadlist's specs/Run for every
// list, input and lent slice, every lent byte included. The check of a list stands below it; the programs above.
#![tactic(auto)]

mod lent;
mod outputs;
mod slots;

ghost use Rattle.std.specs.Prelude.{◌≡◌, length, Ok, Err};
ghost use Rattle.std.proofs.Math.Option.{none};
ghost use Rattle.ground.specs.Refusals.{at, refusal};
ghost use Rattle.ground.specs.Regions.{zeros};
ghost use Rattle.loadlist.specs.Check.{bad_record, listed_of};
ghost use Rattle.loadlist.specs.Run.{made, ran_from, run_of};

use clearing::clear_bytes;
use ground::{Place, Refusal};
use lent::all_trits;
use listcheck::check;
use listcount::record_count;
use outputs::give_outputs;
use slots::make_slots;

fn refused(number: u8, place: usize) -> Result<usize, Refusal>
    ensures { result ≡ Err (refusal number (at place)) }
{
    let p = Place { at: place };
    Err(Refusal { number, place: p })
}

// The run of a good list in clear work space.
fn run_good(
    list: &[u8],
    ins: &[u8],
    outs: &mut [u8],
    work: &mut [u8],
    inputs: usize,
    outputs: usize,
) -> Result<usize, Refusal>
    requires { (work.old ≡ zeros 8192) × (Ok (inputs, outputs) ≡ listed_of list.now) }
    ensures { made result outs.new work.new ≡ ran_from none list.now ins.now outs.old work.old }
{
    if ins.len() != inputs {
        return refused(23, 0);
    }
    if all_trits(ins) {
        if outs.len() < outputs {
            return refused(24, 0);
        }
        let n = record_count(list);
        make_slots(list, ins, work, n);
        give_outputs(list, work, outs, n, outputs);
        return Ok(outputs);
    }
    refused(23, 0)
}

// The run in work space of its exact length.
fn run_in(list: &[u8], ins: &[u8], outs: &mut [u8], work: &mut [u8]) -> Result<usize, Refusal>
    requires { length work.old ≡ 8192 }
    ensures { made result outs.new work.new ≡ ran_from (bad_record list.now) list.now ins.now outs.old work.old }
{
    clear_bytes(work);
    let listed = check(list);
    match listed {
        Ok((inputs, outputs)) => run_good(list, ins, outs, work, inputs, outputs),
        Err(k) => refused(22, k),
    }
}

// The run: the outputs and the slots, or a refusal 1, 22, 23 or 24.
pub fn run(list: &[u8], ins: &[u8], outs: &mut [u8], work: &mut [u8]) -> Result<usize, Refusal>
    ensures { made result outs.new work.new ≡ run_of list.now ins.now outs.old work.old }
{
    if work.len() < 8192 {
        return refused(1, 0);
    }
    run_in(list, ins, outs, &mut work[0..8192])
}
