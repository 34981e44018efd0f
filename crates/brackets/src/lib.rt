// Brackets: what operands, sets and their parts are, and the words of a declaration, as definitions, values and laws. The code that takes
// tokens as parts stands in tokenparts, that of words in keywords, and what stands between brackets is measured in enclosed and sets and
// walked over in walks and tours, all above it; the tokens stand below.
#![tactic(auto)]

use ground::Place;
use lexis::{Reader, Token};

// A string or a constant in the text: the place of its first byte, and how many bytes or bits it means.
#[derive(Clone, Copy)]
pub struct Str {
    pub from: usize,
    pub size: usize,
}

// A reference `!m`, where one is written.
#[derive(Clone, Copy)]
pub struct Ref {
    pub given: bool,
    pub index: u32,
    pub place: Place,
}

// Bits of a cell: offset to offset + width - 1 of the cell that the author numbered so.
#[derive(Clone, Copy)]
pub struct Piece {
    pub cell: u32,
    pub offset: u32,
    pub width: u32,
}

// What an operand part repeats: a constant or a cell piece.
#[derive(Clone, Copy)]
pub enum Base {
    Constant(Str),
    Cell(Piece),
}

// An operand part: a constant, a cell piece, or a repetition that says which of the two it repeats, and how often.
#[derive(Clone, Copy)]
pub enum Part {
    One(Base),
    Repeated(Base, u32),
}

// An operand, where the keyword has one: the place at which it is read, and its exact width.
#[derive(Clone, Copy)]
pub struct Operand {
    pub given: bool,
    pub at: usize,
    pub width: u64,
}

// The place at which the members of a set are read, and their number.
#[derive(Clone, Copy)]
pub struct Members {
    pub at: usize,
    pub count: u64,
}

// What stands next between the brackets of an operand: a part with its place, or another token.
#[derive(Clone, Copy)]
pub enum Parted {
    Took(Part, Place),
    Other(Token),
}

// What stands next between the brackets of a set: a member, or another token.
#[derive(Clone, Copy)]
pub enum Membered {
    Took(Ref),
    Other(Token),
}

// Where a walk over the parts of an operand stands: past them, before the one part, or between brackets, where at most `left` parts come.
#[derive(Clone, Copy)]
pub enum Walk {
    Past,
    Alone(Part, Place),
    Within(Reader, usize),
}

// Where a walk over the members of a set stands, at most `left` of them before it.
#[derive(Clone, Copy)]
pub struct Tour {
    pub next: Reader,
    pub left: usize,
}
