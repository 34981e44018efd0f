// Numbering: the widths and numbers of all cells, worked out once for a printing. A cell's number is the sum over earlier cells of the
// greater of 1 and its width. The netlist stands below it, printing above.
#![tactic(auto)]

ghost use Rattle.std.specs.Prelude.{◌≡◌, true, List, ℕ, ◌≤◌, eqb, length};
ghost use Rattle.ground.specs.Choice.{pick};
ghost use Rattle.ground.specs.Lists.{every};
ghost use Rattle.numbering.specs.Numbers.{numbers_by, row_widths, narrow};

// The width of each cell, from its row.
pub fn take_widths(rows: &[u32], widths: &mut [u32])
    requires { (length rows.now ≡ 4608) × (length widths.old ≤ 512) }
    ensures { widths.new ≡ row_widths (length widths.old) rows.now }
{
    for i in 0..widths.len() {
        widths[i] = rows[i * 9 + 1];
    }
}

// How many numbers a cell takes: the greater of 1 and its width.
fn taken_by(w: u32) -> u32
    ensures { result ≡ pick (eqb w 0) 1 w }
{
    if w == 0 {
        return 1;
    }
    w
}

// The number of each cell, from the widths.
pub fn number_cells(widths: &[u32], numbers: &mut [u32])
    requires { (length numbers.old ≡ length widths.now) × (length widths.now ≤ 512) × (every narrow widths.now ≡ true) }
    ensures { numbers.new ≡ numbers_by 0 widths.now }
{
    let mut number: u32 = 0;
    for i in 0..widths.len() {
        numbers[i] = number;
        number += taken_by(widths[i]);
    }
}
