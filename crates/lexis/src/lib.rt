// Lexis: from bytes to tokens. It promises that each token and each refusal 5 and 6 with its place are those that the definitions of
// specs/ give. The form of declarations stands above it, the signs that tokens are made of below.
#![tactic(auto)]

pub mod tokens;

use ground::{Place, Refusal};

// Where the reader stands, past what it has read.
#[derive(Clone, Copy)]
pub struct Reader {
    pub next: Place,
}

// A token. Its sort says which fields count; the others are 0.
#[derive(Clone, Copy)]
pub struct Token {
    pub sort: u8,
    pub place: Place,
    pub value: u32,
    pub from: usize,
    pub size: usize,
    pub parts: u8,
    pub offset: u32,
    pub width: u32,
    pub count: u32,
}

// What was taken, and the reader past it; or a refusal with its place.
pub type Took<T> = Result<(T, Reader), Refusal>;

// A cell identifier between brackets, without a count, by its numbers and the place past it; `closed` where `]` stands there instead.
#[derive(Clone, Copy)]
pub struct Spot {
    pub found: bool,
    pub closed: bool,
    pub cell: u32,
    pub offset: u32,
    pub width: u32,
    pub end: usize,
}

// A reference between brackets: its index, its place and the place past it.
#[derive(Clone, Copy)]
pub struct Link {
    pub index: u32,
    pub at: usize,
    pub end: usize,
}
