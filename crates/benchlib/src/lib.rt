// The C library's functions of the logic: an evaluation, a translation and a run, their answers told as numbers. It promises what
// evaluating, translating and running promise.
#![tactic(auto)]

ghost use Rattle.std.specs.Prelude.{◌≡◌};
ghost use Rattle.evaluating.specs.Outcome.{evaluate_of};
ghost use Rattle.translating.specs.Outcome.{translate_of};
ghost use Rattle.loadlist.specs.Run.{run_of};
ghost use Rattle.benchlib.specs.Logic.{told, after, after_evaluation, after_translation, after_run};

use evaluating::evaluate;
use ground::Refusal;
use running::run;
use translating::translate;

// How many output bits or records are given, or why none are.
#[repr(C)]
#[derive(Clone, Copy)]
pub struct Gave {
    pub count: u64,
    pub number: u32,
    pub place: u64,
}

// As `tell` of printlib, but into the record that C is given here, whose field has its own name.
fn tell(r: Result<usize, Refusal>) -> Gave
    ensures { result ≡ told r }
{
    match r {
        Ok(n) => Gave {
            count: n as u64,
            number: 0,
            place: 0,
        },
        Err(g) => Gave {
            count: 0,
            number: g.number as u32,
            place: g.place.at as u64,
        },
    }
}

// The evaluation of the netlist in three lent tables: refusal 1, 15, 20, 23 or 24.
pub fn grackle_evaluate(
    rows: &[u32],
    strings: &[u8],
    trits: &[u8],
    ins: &[u8],
    outs: &mut [u8],
    work: &mut [u32],
) -> Gave
    ensures { after result outs.new work.new ≡ after_evaluation (evaluate_of rows.now strings.now trits.now ins.now outs.old work.old) }
{
    tell(evaluate(rows, strings, trits, ins, outs, work))
}

// The load list of the netlist in three lent tables: refusal 1, 15, 20, 21 or 24.
pub fn grackle_translate(
    rows: &[u32],
    strings: &[u8],
    trits: &[u8],
    list: &mut [u8],
    work: &mut [u32],
) -> Gave
    ensures { after result list.new work.new ≡ after_translation (translate_of rows.now strings.now trits.now list.old work.old) }
{
    tell(translate(rows, strings, trits, list, work))
}

// The run of a load list: refusal 1, 22, 23 or 24.
pub fn grackle_run(list: &[u8], ins: &[u8], outs: &mut [u8], work: &mut [u8]) -> Gave
    ensures { after result outs.new work.new ≡ after_run (run_of list.now ins.now outs.old work.old) }
{
    tell(run(list, ins, outs, work))
}
