// The width of an operand.
ghost use Rattle.std.specs.Prelude.{◌≡◌};
ghost use Rattle.ground.specs.Regions.{part};
ghost use Rattle.netlist.specs.Netlist.{operand_width};
ghost use Rattle.cells.specs.Held.{held_runs};

use gathering::bits::gather;

// Its bits are counted and given nowhere, so it does not matter what they are.
pub(crate) fn width_of(runs: &[u32], trits: &[u8], from: usize, size: usize) -> usize
    ensures { result ≡ operand_width (part from size (held_runs runs.now trits.now)) }
{
    let mut none = [0u8; 1];
    gather(runs, trits, runs, trits, from, size, &mut none)
}
