// Noting: what stands in the lent tables and the work space while a text is read, how much it is, and what a declaration of good form
// brings; and a refusal as a step of reading tells it. Asking and laying stand below it; the declarations of I/O, metadata and cells, the
// loop over them and reading above.
#![tactic(auto)]

ghost use Rattle.std.specs.Prelude.{◌≡◌, Err};
ghost use Rattle.ground.specs.Refusals.{refusal};

use ground::{Place, Refusal};

// How much the text brought so far: rows, members of sets, trits of attributes, runs, known trits in them, declared cell bits,
// output bits, and bytes of strings; and whether a part without bits was read, of which the runs tell nothing. That flag is a fact of its own: the
// numbers count either way.
#[derive(Clone, Copy)]
pub struct Tally {
    pub metas: usize,
    pub ios: usize,
    pub cells: usize,
    pub members: usize,
    pub trits: usize,
    pub runs: usize,
    pub known: usize,
    pub declared: usize,
    pub outputs: usize,
    pub strings: usize,
    pub bare: bool,
}

// The rule of the number, broken at the place.
pub fn refuse(number: u8, place: Place) -> Result<(), Refusal>
    ensures { result ≡ Err (refusal number place) }
{
    Err(Refusal { number, place })
}
