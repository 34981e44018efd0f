// The slots of an operand's bits, gathered from its runs with bit 0 first, as the bits themselves are. A constant's slots are its trits:
// slots 0, 1, 2 hold 0, 1, X. It promises them for whatever is lent, every lent byte included. Gathering stands below it, the translator
// above.
#![tactic(auto)]

ghost use Rattle.ground.specs.Regions.{part};
ghost use Rattle.ground.specs.Writes.{Put};
ghost use Rattle.cells.specs.Operands.{bits_from};
ghost use Rattle.cells.specs.Held.{held_runs, held_bits};

use gathering::held::gather_held;

// The operand that has `size` rows of the table of runs, from the row `from` on: the slots of its bits, and how many they are.
pub fn gather_slots(
    runs: &[u32],
    trits: &[u8],
    starts: &[u32],
    slots: &[u16],
    from: usize,
    size: usize,
    out: &mut [u16],
) -> usize
    ensures { Put out.old 0 (bits_from (held_bits starts.now slots.now) (part from size (held_runs runs.now trits.now))) result out.new }
{
    gather_held(runs, trits, starts, slots, from, size, out)
}
