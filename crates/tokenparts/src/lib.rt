// Tokens taken as parts of operands, as strings and as references. It promises that each is what the definitions of brackets give for
// any token. Brackets stands below it; operands, sets and declarations above.
#![tactic(auto)]

ghost use Rattle.std.specs.Prelude.{◌≡◌, ◌-◌, ◌<◌};
ghost use Rattle.lexis.specs.Tokens.{took, plain};
ghost use Rattle.brackets.specs.Parts.{is_part, str, base_of, part_of, ref};

use brackets::{Base, Part, Piece, Ref, Str};
use ground::Place;
use lexis::{Reader, Token, Took};

// The place before a place; before the first there is none, and 0 is told.
fn place_before(end: usize) -> usize
    ensures { result ≡ end - 1 }
{
    if 0 < end {
        return end - 1;
    }
    0
}

// The special character before a place, as it is taken.
pub fn mark_before(b: u8, end: usize) -> Took<Token>
    ensures { result ≡ took (plain 2 (end - 1) b 0 0) end }
{
    let at = place_before(end);
    let token = Token {
        sort: 2,
        place: Place { at },
        value: b as u32,
        from: 0,
        size: 0,
        parts: 0,
        offset: 0,
        width: 0,
        count: 0,
    };
    let next = Place { at: end };
    Ok((token, Reader { next }))
}

// A constant or a cell piece, each alone or repeated.
pub fn is_part(token: Token) -> bool
    ensures { result ≡ is_part token }
{
    if token.sort == 4 {
        return true;
    }
    token.sort == 8
}

pub fn str_of(token: Token) -> Str
    ensures { result ≡ str token }
{
    Str {
        from: token.from,
        size: token.size,
    }
}

fn base_of(token: Token) -> Base
    ensures { result ≡ base_of token }
{
    if token.sort == 4 {
        return Base::Constant(str_of(token));
    }
    Base::Cell(Piece {
        cell: token.value,
        offset: token.offset,
        width: token.width,
    })
}

pub fn part_of(token: Token) -> Part
    ensures { result ≡ part_of token }
{
    if 4 <= token.parts {
        return Part::Repeated(base_of(token), token.count);
    }
    Part::One(base_of(token))
}

pub fn ref_of(token: Token) -> Ref
    ensures { result ≡ ref token }
{
    let place = token.place;
    Ref {
        given: true,
        index: token.value,
        place,
    }
}
