// The runs of a cell's operands: each operand of a declaration laid as longest runs behind those in use. It promises the runs that saying
// gives, or that they need more than 4,096 rows; and it tells whether a part has no bits, which leaves no run. Joining stands below it,
// the declarations of cells above.
#![tactic(auto)]

mod operands;
mod parts;

ghost use Rattle.std.specs.Prelude.{◌≡◌, ◌||◌, List, ◌+◌, ◌≤◌, length};
ghost use Rattle.brackets.specs.Parts.{parts_at};
ghost use Rattle.brackets.proofs.Sums.{widths};
ghost use Rattle.netlist.specs.Netlist.{Run};
ghost use Rattle.saying.specs.Values.{operand_runs};
ghost use Rattle.laying.specs.Holding.{Holds, Held, After, Room, CellAfter};
ghost use Rattle.laying.specs.Bare.{some_bare, cell_bare, TellsBare, CellTellsBare};

use brackets::Operand;
use enclosed::measures::first_token;
use form::Wiring;
use ground::Place;
use laying::{Counts, Laid};
use lexis::Reader;
use operands::{lay_alone, lay_within};
use signs::classes::Classes;
use tokenparts::is_part;

// The operand's runs behind those in use.
fn lay_operand(
    t: &Classes,
    text: &[u8],
    operand: Operand,
    runs: &mut [u32],
    trits: &mut [u8],
    so: Laid,
) -> Option<(Laid, bool)>
    requires { (length text.now ≤ 65536) × Held runs.old trits.old so × (widths (parts_at text.now operand) ≤ 256) × (so.trits + widths (parts_at text.now operand) ≤ 262656) }
    ensures { ((rs : List Run) → Holds rs runs.old trits.old so → After rs (operand_runs text.now operand) result runs.new trits.new) × TellsBare (some_bare (parts_at text.now operand)) result }
{
    let at = operand.at;
    if operand.given {
        let reader = Reader { next: Place { at } };
        let step = first_token(t, text, reader);
        let Ok((token, next)) = step else {
            return Some((so, false));
        };
        if is_part(token) {
            return lay_alone(t, text, token, runs, trits, so);
        }
        return lay_within(t, text, next, runs, trits, so);
    }
    Some((so, false))
}

// Whether one of three operands has a part without bits.
fn any_bare(a: bool, b: bool, c: bool) -> bool
    ensures { result ≡ (a || (b || c)) }
{
    if a {
        return true;
    }
    if b {
        return true;
    }
    c
}

// The runs of a cell's three operands, in order, behind those in use.
pub fn lay_cell(
    t: &Classes,
    text: &[u8],
    w: Wiring,
    runs: &mut [u32],
    trits: &mut [u8],
    so: Laid,
) -> Option<Counts>
    requires { (length text.now ≤ 65536) × Held runs.old trits.old so × Room text.now w so }
    ensures { ((rs : List Run) → Holds rs runs.old trits.old so → CellAfter rs (operand_runs text.now w.a) (operand_runs text.now w.b) (operand_runs text.now w.c) result runs.new trits.new) × CellTellsBare (cell_bare text.now w) result }
{
    let (one, x) = lay_operand(t, text, w.a, runs, trits, so)?;
    let (two, y) = lay_operand(t, text, w.b, runs, trits, one)?;
    let (all, z) = lay_operand(t, text, w.c, runs, trits, two)?;
    Some(Counts {
        a: one.runs - so.runs,
        b: two.runs - one.runs,
        c: all.runs - two.runs,
        so: all,
        bare: any_bare(x, y, z),
    })
}
