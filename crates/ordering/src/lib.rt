// The order of placing of the cells in lent tables, in the front of lent work space, which is left as zeros. It promises the order that
// placing gives, and its refusal where a ring is. Placing stands below it; the evaluator and the translator above.
#![tactic(auto)]

ghost use Rattle.std.specs.Prelude.{◌≡◌};
ghost use Rattle.ground.specs.Regions.{zeros};
ghost use Rattle.placing.specs.InTables.{Inside, PlacedAll};

use placing::{Placed, place};

// The order of placing, with the front of the work space for its marks.
pub fn order_rows(
    cells: &[u32],
    runs: &[u32],
    n: usize,
    order: &mut [u32],
    work: &mut [u32],
) -> Placed
    requires { Inside cells.now runs.now n × (order.old ≡ zeros 512) × (work.old ≡ zeros 8192) }
    ensures { PlacedAll cells.now runs.now n order.new (zeros 1026) result × (work.new ≡ zeros 8192) }
{
    place(cells, runs, n, order, &mut work[0..1026])
}
