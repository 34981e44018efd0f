// The words, marks and keywords of a declaration: letters are compared where they stand, with no copy. It promises what the definitions of
// brackets give for any text and token. Brackets stands below it; operands, sets and declarations above.
#![tactic(auto)]

ghost use Rattle.std.specs.Prelude.{◌≡◌, take, drop};
ghost use Rattle.kinds.specs.Kinds.{keywords};
ghost use Rattle.brackets.specs.Words.{is_sort, is_mark, is_spelled, numbered, kind_of};

use comparing::same_bytes;
use lexis::Token;
use regions::part_at;

// A word of these letters.
#[tactic(auto, unfolding(ground::specs::Regions::part))]
pub fn is_word(text: &[u8], token: Token, word: &[u8]) -> bool
    ensures { result ≡ is_spelled text.now word.now token }
{
    let from = token.from;
    let size = token.size;
    if token.sort == 3 {
        return same_bytes(part_at(text, from, size), word);
    }
    false
}

pub fn is_sort(sort: u8, token: Token) -> bool
    ensures { result ≡ is_sort sort token }
{
    token.sort == sort
}

// A special character.
pub fn is_mark(b: u8, token: Token) -> bool
    ensures { result ≡ is_mark b token }
{
    if token.sort == 2 {
        return token.value == (b as u32);
    }
    false
}

// The number of a keyword from `xor` on.
fn late_keyword(w: &[u8]) -> u8
    ensures { result ≡ numbered (drop 6 keywords) w.now 7 }
{
    if same_bytes(w, b"xor") {
        return 7;
    }
    if same_bytes(w, b"mux") {
        return 8;
    }
    if same_bytes(w, b"adc") {
        return 9;
    }
    if same_bytes(w, b"eq") {
        return 10;
    }
    if same_bytes(w, b"ult") {
        return 11;
    }
    if same_bytes(w, b"slt") {
        return 12;
    }
    0
}

fn keyword(w: &[u8]) -> u8
    ensures { result ≡ numbered keywords w.now 1 }
{
    if same_bytes(w, b"input") {
        return 1;
    }
    if same_bytes(w, b"output") {
        return 2;
    }
    if same_bytes(w, b"buf") {
        return 3;
    }
    if same_bytes(w, b"not") {
        return 4;
    }
    if same_bytes(w, b"and") {
        return 5;
    }
    if same_bytes(w, b"or") {
        return 6;
    }
    late_keyword(w)
}

// The kind that a token in the keyword's place names; 0 where it names none.
#[tactic(auto, unfolding(ground::specs::Regions::part))]
pub fn kind_of(text: &[u8], token: Token) -> u8
    ensures { result ≡ kind_of text.now token }
{
    let from = token.from;
    let size = token.size;
    if token.sort == 3 {
        return keyword(part_at(text, from, size));
    }
    0
}
