// Assigning: where the bits of each cell begin among all bits, the number of input bits, and the input bits written where their cells'
// bits begin. The netlist stands below it, evaluating above.
#![tactic(auto)]

ghost use Rattle.std.specs.Prelude.{◌≡◌, List, ℕ, ◌+◌, ◌≤◌, eqb, length};
ghost use Rattle.std.proofs.lemmas.List.Edits.{sets};
ghost use Rattle.ground.specs.Choice.{pick};
ghost use Rattle.ground.specs.Regions.{part};
ghost use Rattle.assigning.specs.Rows.{width_in, input_in, rows_total, starts_from, assigned_in};

// Where the bits of each of the first n rows begin.
pub fn start_rows(rows: &[u32], n: usize, starts: &mut [u32])
    requires { (length rows.now ≡ 4608) × (n ≤ 512) × (n ≤ length starts.old) × (rows_total width_in n rows.now ≤ 4096) }
    ensures { starts.new ≡ sets starts.old 0 (starts_from 0 n rows.now) }
{
    let mut start: u32 = 0;
    for i in 0..n {
        starts[i] = start;
        start += rows[i * 9 + 1];
    }
}

// The bits that a row takes from an assignment: all of an input's, none of another's.
pub fn input_width(kind: u32, width: u32) -> u32
    ensures { result ≡ pick (eqb kind 1) width 0 }
{
    if kind == 1 {
        return width;
    }
    0
}

// The number of input bits.
pub fn count_inputs(rows: &[u32], n: usize) -> u32
    requires { (length rows.now ≡ 4608) × (n ≤ 512) × (rows_total input_in n rows.now ≤ 4096) }
    ensures { result ≡ rows_total input_in n rows.now }
{
    let mut count: u32 = 0;
    for i in 0..n {
        count += input_width(rows[i * 9], rows[i * 9 + 1]);
    }
    count
}

// Bits copied from a place of one slice to a place of another.
pub fn copy_bits(from: &[u8], at: usize, size: usize, to: &mut [u8], place: usize)
    requires { (at + size ≤ length from.now) × (place + size ≤ length to.old) }
    ensures { to.new ≡ sets to.old place (part at size from.now) }
{
    for i in 0..size {
        to[place + i] = from[at + i];
    }
}

// The bits of the inputs among the first n rows, each where its row's bits begin.
pub fn assign(rows: &[u32], n: usize, ins: &[u8], values: &mut [u8])
    requires { (length rows.now ≡ 4608) × (n ≤ 512) × (rows_total width_in n rows.now ≤ length values.old) × (rows_total input_in n rows.now ≤ length ins.now) }
    ensures { values.new ≡ assigned_in n rows.now ins.now 0 0 values.old }
{
    let mut start: usize = 0;
    let mut at: usize = 0;
    for i in 0..n {
        let w = rows[i * 9 + 1] as usize;
        let taken = input_width(rows[i * 9], rows[i * 9 + 1]) as usize;
        copy_bits(ins, at, taken, values, start);
        start += w;
        at += taken;
    }
}
