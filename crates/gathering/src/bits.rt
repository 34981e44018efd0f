// The bits of an operand, gathered from its runs with bit 0 first: the last run holds bit 0. Past the end of a lent table or of the
// values 0 is read, and bits that the room has no place for are dropped and counted.
ghost use Rattle.ground.specs.Regions.{part};
ghost use Rattle.ground.specs.Writes.{Put};
ghost use Rattle.cells.specs.Operands.{bits_from};
ghost use Rattle.cells.specs.Held.{held_runs, held_bits};

use crate::held::gather_held;

// The operand that has `size` rows of the table of runs, from the row `from` on: its bits, and how many they are.
pub fn gather(
    runs: &[u32],
    trits: &[u8],
    starts: &[u32],
    values: &[u8],
    from: usize,
    size: usize,
    out: &mut [u8],
) -> usize
    ensures { Put out.old 0 (bits_from (held_bits starts.now values.now) (part from size (held_runs runs.now trits.now))) result out.new }
{
    gather_held(runs, trits, starts, values, from, size, out)
}
