// Laying: the operands of a declaration as longest runs in the lent tables, as definitions, answers and laws: what stands in use, what a
// part adds to it, and when a part has no bits. The form of operands stands below it; the code, in joining and cellruns, above.
#![tactic(auto)]

// How many run rows and run trits are in use.
#[derive(Clone, Copy)]
pub struct Laid {
    pub runs: usize,
    pub trits: usize,
}

// The runs of a cell's three operands, what is in use now, and whether a part of an operand has no bits. That flag is a fact of its own: the
// counts count either way.
#[derive(Clone, Copy)]
pub struct Counts {
    pub a: usize,
    pub b: usize,
    pub c: usize,
    pub so: Laid,
    pub bare: bool,
}
