// Form: from tokens to the form of one declaration. It promises that each declaration taken, and each refusal 5 to 8 with its
// place (2 for a text that is too long), is the one that the definitions of specs/ give. The rules 9 to 14 stand above it, the
// operands and sets below.
#![tactic(auto)]

pub mod forms;

use brackets::{Members, Operand, Ref, Str};
use ground::{Place, Refusal};
use lexis::Reader;

// A line and a column of a source file, each in 32 bits, a negative one as its two's complement.
#[derive(Clone, Copy)]
pub struct Point {
    pub line: u32,
    pub column: u32,
}

#[derive(Clone, Copy)]
pub struct Range {
    pub first: Point,
    pub last: Point,
}

// A scope's own name: a string or a number.
#[derive(Clone, Copy)]
pub enum Label {
    Named(Str),
    Indexed(u32),
}

// What an attribute holds.
#[derive(Clone, Copy)]
pub enum Payload {
    Bits(Str),
    Integer(u32),
    Text(Str),
}

// A cell: its keyword's number, its width, its name or an empty one, its operands, its metadata.
#[derive(Clone, Copy)]
pub struct Wiring {
    pub kind: u8,
    pub width: u32,
    pub name: Str,
    pub a: Operand,
    pub b: Operand,
    pub c: Operand,
    pub meta: Ref,
}

#[derive(Clone, Copy)]
pub enum Decl {
    Set(Members),
    Source(Str, Range),
    Scope(Label, Ref, Ref),
    Ident(Str, Ref),
    Attr(Str, Payload),
    Io(Str, u32),
    Cell(Wiring),
}

// A declaration: the place of its first token, its index where it has one, and the rest.
#[derive(Clone, Copy)]
pub struct Declared {
    pub place: Place,
    pub index: u32,
    pub decl: Decl,
}

// A declaration by its form and the reader past it; nothing at the end of the text; or a refusal with its place.
pub type Form = Result<Option<(Declared, Reader)>, Refusal>;
