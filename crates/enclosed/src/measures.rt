// Operands measured: the exact width of an operand, or the refusal.
ghost use Rattle.std.specs.Prelude.{◌≡◌, ◌-◌, ◌<◌, ◌≤◌, length, Ok};
ghost use Rattle.lexis.specs.Tokens.{token_at};
ghost use Rattle.brackets.specs.Parts.{base_of, part_of, base_width, part_width, widest, Narrow, refused_part, parted_of, next_part, concat_end, concat_at, operand_from, operand_at};

use brackets::{Operand, Parted};
use ground::Refusal;
use keywords::is_mark;
use lexis::{Reader, Token, Took};
use signs::classes::Classes;
use spots::byte_with;
use tokenparts::{is_part, mark_before, part_of};

// The width of the base that a token is or repeats.
fn alone_width(token: Token) -> u64
    ensures { result ≡ base_width (base_of token) }
{
    if token.sort == 4 {
        return token.size as u64;
    }
    token.width as u64
}

// The width of the part that a token is, measured without making the part.
fn token_width(token: Token) -> u64
    requires { part_width (part_of token) ≤ widest }
    ensures { result ≡ part_width (part_of token) }
{
    let width = alone_width(token);
    if 4 <= token.parts {
        return (token.count as u64) * width;
    }
    width
}

fn refused_part(token: Token) -> u8
    ensures { result ≡ refused_part token }
{
    if token.sort == 10 {
        return 8;
    }
    7
}

// What stands next between the brackets of an operand.
#[tactic(auto, unfolding(brackets::specs::Parts::next_part))]
pub fn next_part(text: &[u8], reader: Reader) -> Took<Parted>
    ensures { result ≡ next_part text.now reader.next.at }
{
    let (token, r) = reader.next_inside(text)?;
    parted(token, r)
}

fn parted(token: Token, reader: Reader) -> Took<Parted>
    ensures { result ≡ parted_of (Ok (token, reader)) }
{
    let place = token.place;
    if is_part(token) {
        return Ok((Parted::Took(part_of(token), place), reader));
    }
    Ok((Parted::Other(token), reader))
}

fn concat_end(width: u64, token: Token, reader: Reader) -> Took<u64>
    ensures { result ≡ concat_end width token reader }
{
    let place = token.place;
    if is_mark(93, token) {
        return Ok((width, reader));
    }
    let number = refused_part(token);
    Err(Refusal { number, place })
}

// The width of a concatenation whose `[` is read. Each part takes a byte at least, so the text's length bounds their number.
fn concat(t: &Classes, text: &[u8], reader: Reader) -> Took<u64>
    requires { length text.now ≤ 65536 }
    ensures { result ≡ concat_at text.now reader.next.at }
{
    let mut width: u64 = 0;
    let mut next = reader;
    for i in 0..text.len() + 1 {
        let (token, r) = next.inside_with(t, text)?;
        if is_part(token) {
            width += token_width(token);
            next = r;
        } else {
            return concat_end(width, token, r);
        }
    }
    let place = next.next;
    Err(Refusal { number: 7, place })
}

// The operand at `at` whose first token is read: a part, or a concatenation.
fn operand_from(t: &Classes, text: &[u8], at: usize, token: Token, reader: Reader) -> Took<Operand>
    requires { (length text.now ≤ 65536) × Narrow token }
    ensures { result ≡ operand_from text.now at (Ok (token, reader)) }
{
    if is_part(token) {
        let width = token_width(token);
        return Ok((
            Operand {
                given: true,
                at,
                width,
            },
            reader,
        ));
    }
    if is_mark(91, token) {
        let (width, r) = concat(t, text, reader)?;
        return Ok((
            Operand {
                given: true,
                at,
                width,
            },
            r,
        ));
    }
    let place = token.place;
    let number = refused_part(token);
    Err(Refusal { number, place })
}

// The first token of an operand. Where `[` begins it, that is told by its byte.
pub fn first_token(t: &Classes, text: &[u8], reader: Reader) -> Took<Token>
    ensures { result ≡ token_at text.now reader.next.at }
{
    let end = byte_with(t, text, reader, 91);
    if 0 < end {
        return mark_before(91, end);
    }
    reader.next_with(t, text)
}

#[tactic(auto, unfolding(brackets::specs::Parts::operand_at))]
pub fn operand_at(t: &Classes, text: &[u8], reader: Reader) -> Took<Operand>
    requires { length text.now ≤ 65536 }
    ensures { result ≡ operand_at text.now reader.next.at }
{
    let at = reader.next.at;
    let (token, r) = first_token(t, text, reader)?;
    operand_from(t, text, at, token, r)
}
