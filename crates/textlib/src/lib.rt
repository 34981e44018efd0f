// The C library's functions of texts: the whole text and the count of its tokens, their answers told as numbers, with refusal number 0
// where nothing is refused. It promises what scanning and lexis promise.
#![tactic(auto)]

ghost use Rattle.std.specs.Prelude.{◌≡◌, ◌+◌, ◌≤◌, length};
ghost use Rattle.scanning.specs.Whole.{whole_of};
ghost use Rattle.textlib.specs.Told.{told_of, told, refused_at, answer_of, moved_by, tokens_from, tokens_of};

use ground::{Place, Refusal};
use lexis::{Reader, Token, Took};
use scanning::scan::whole;
use signs::classes::Classes;

// A refusal number with its place; 0 and 0 where nothing is refused.
#[repr(C)]
#[derive(Clone, Copy)]
pub struct Told {
    pub number: u32,
    pub place: u64,
}

// How many tokens a text has, or why it is refused.
#[repr(C)]
#[derive(Clone, Copy)]
pub struct Counted {
    pub tokens: u64,
    pub number: u32,
    pub place: u64,
}

fn refused_at(g: Refusal) -> Counted
    ensures { result ≡ refused_at g }
{
    Counted {
        tokens: 0,
        number: g.number as u32,
        place: g.place.at as u64,
    }
}

fn moved_by(step: Took<Token>) -> Result<Option<usize>, Refusal>
    ensures { result ≡ moved_by step }
{
    let (token, reader) = step?;
    if token.sort == 1 {
        return Ok(None);
    }
    let at = reader.next.at;
    Ok(Some(at))
}

// How many tokens there are up to the end of the text, or the first refusal. Each token takes a byte at least.
fn count_from(t: &Classes, text: &[u8]) -> Result<u64, Refusal>
    requires { length text.now ≤ 65536 }
    ensures { answer_of result ≡ tokens_from (length text.now + 1) text.now 0 0 }
{
    let mut at: usize = 0;
    for tokens in 0..text.len() + 1 {
        let reader = Reader { next: Place { at } };
        match moved_by(reader.next_with(t, text))? {
            None => {
                return Ok(tokens as u64);
            }
            Some(k) => {
                at = k;
            }
        }
    }
    Ok(text.len() as u64 + 1)
}

// The same of a text that need not be sound as a whole.
#[tactic(auto, unfolding(crate::specs::Told::tokens_of))]
fn count(text: &[u8]) -> Result<u64, Refusal>
    ensures { answer_of result ≡ tokens_of text.now }
{
    whole(text)?;
    let t = Classes::new();
    count_from(&t, text)
}

// Nothing is refused.
pub fn accepted() -> Told
    ensures { result ≡ told_of 0 0 }
{
    let place = 0;
    Told { number: 0, place }
}

// A refusal, by its number and its place.
pub fn told_by(g: Refusal) -> Told
    ensures { result ≡ told_of g.number g.place.at }
{
    let number = g.number as u32;
    let place = g.place.at as u64;
    Told { number, place }
}

// The text as a whole: refusal 2, 3 or 4 with its place.
pub fn grackle_whole(text: &[u8]) -> Told
    ensures { result ≡ told (whole_of text.now) }
{
    match whole(text) {
        Ok(()) => accepted(),
        Err(g) => told_by(g),
    }
}

// The tokens of a text that is sound as a whole, line ends counted: how many, or the first refusal 2 to 6 with its place.
pub fn grackle_tokens(text: &[u8]) -> Counted
    ensures { result ≡ tokens_of text.now }
{
    match count(text) {
        Ok(tokens) => Counted {
            tokens,
            number: 0,
            place: 0,
        },
        Err(g) => refused_at(g),
    }
}
