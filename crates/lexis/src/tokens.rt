// The tokens, each by the bytes that begin it, and the reader that goes from token to token.
ghost use Rattle.std.specs.Prelude.{◌≡◌, true, false, not, ◌||◌, ◌+◌, ◌<◌, ◌≤◌, eqb, length};
ghost use Rattle.ground.specs.Choice.{pick};
ghost use Rattle.signs.specs.Pieces.{quoted_at};
ghost use Rattle.lexis.specs.Tokens.{written, took, plain, refused, single, signed_of, meta_of, number_of, constant_from, constant_of, cell_took, cell_from, opens_placeholder, cell_of, io_from, named_from, floating_from, io_of, string_step, word_of, long_of, follows, standing_at, token_at, inside_at};

use crate::{Reader, Token, Took};
use ground::{Place, Refusal};
use numerals::{count_at, numeral_at, offset_at, width_at};
use signs::classes::Classes;
use signs::pieces::{Numeral, Suffix, between, byte_at, in_classes};
use spans::{comment_end, inside_end, span};
use strings::quoted_at;

fn refused(number: u8, k: usize) -> Took<Token>
    ensures { result ≡ refused number k }
{
    Err(Refusal {
        number,
        place: Place { at: k },
    })
}

fn took_plain(sort: u8, k: usize, value: u32, from: usize, size: usize, end: usize) -> Took<Token>
    ensures { result ≡ took (plain sort k value from size) end }
{
    Ok((
        Token {
            sort,
            place: Place { at: k },
            value,
            from,
            size,
            parts: 0,
            offset: 0,
            width: 0,
            count: 0,
        },
        Reader {
            next: Place { at: end },
        },
    ))
}

fn part_bit(given: bool, n: u8) -> u8
    ensures { (result ≡ pick given n 0) × (result ≤ n) }
{
    if given {
        return n;
    }
    0
}

// Which parts are written.
fn written_parts(o: bool, w: bool, c: bool) -> u8
    ensures { result ≡ written o w c }
{
    part_bit(o, 1) + part_bit(w, 2) + part_bit(c, 4)
}

// A token that is one numeral.
fn one_numeral(sort: u8, k: usize, from: usize, i: Numeral, value: u32, end: usize) -> Took<Token>
    ensures { result ≡ single sort k from i value end }
{
    if i.end == from {
        return refused(5, k);
    }
    if i.large {
        return refused(6, k);
    }
    took_plain(sort, k, value, 0, 0, end)
}

#[tactic(auto, unfolding(crate::specs::Tokens::meta_of))]
fn meta(text: &[u8], k: usize) -> Took<Token>
    requires { k < length text.now }
    ensures { result ≡ meta_of text.now k }
{
    let from = k + 1;
    let i = numeral_at(text, from, 65535);
    one_numeral(6, k, from, i, i.value, i.end)
}

// A number in 32 bits, a negative one as its two's complement.
fn signed(minus: bool, n: u32) -> u32
    ensures { result ≡ signed_of minus n }
{
    if minus {
        if 0 < n {
            return (4294967295 - n) + 1;
        }
        return n;
    }
    n
}

#[tactic(auto, unfolding(crate::specs::Tokens::number_of))]
fn number(text: &[u8], k: usize) -> Took<Token>
    requires { k < length text.now }
    ensures { result ≡ number_of text.now k }
{
    let from = k + 1;
    let b = byte_at(text, from);
    if b == 45 {
        let behind = k + 2;
        let i = numeral_at(text, behind, 2147483648);
        return one_numeral(5, k, behind, i, signed(true, i.value), i.end);
    }
    let i = numeral_at(text, from, 2147483647);
    one_numeral(5, k, from, i, signed(false, i.value), i.end)
}

#[tactic(auto, unfolding(crate::specs::Tokens::word_of))]
fn word(t: &Classes, text: &[u8], k: usize) -> Took<Token>
    ensures { result ≡ word_of text.now k }
{
    let e = span(t, text, k, 7, 8);
    took_plain(3, k, 0, k, e - k, e)
}

fn string(t: &Classes, text: &[u8], quote: usize) -> Took<Token>
    requires { quote < length text.now }
    ensures { result ≡ string_step quote (quoted_at text.now (quote + 1)) }
{
    let from = quote + 1;
    match quoted_at(t, text, from) {
        Some((size, end)) => took_plain(9, quote, 0, from, size, end),
        None => refused(5, quote),
    }
}

// The constant from k to e, with the count behind it.
fn constant_from(k: usize, e: usize, times: Suffix) -> Took<Token>
    requires { k ≤ e }
    ensures { result ≡ constant_from k e times }
{
    if times.broken {
        return refused(5, k);
    }
    if times.large {
        return refused(6, k);
    }
    let parts = written_parts(false, false, times.given);
    Ok((
        Token {
            sort: 4,
            place: Place { at: k },
            value: 0,
            from: k,
            size: e - k,
            parts,
            offset: 0,
            width: 0,
            count: times.value,
        },
        Reader {
            next: Place { at: times.end },
        },
    ))
}

#[tactic(auto, unfolding(crate::specs::Tokens::constant_of))]
fn constant(t: &Classes, text: &[u8], k: usize) -> Took<Token>
    ensures { result ≡ constant_of text.now k }
{
    let e = span(t, text, k, 5, 6);
    let c = count_at(text, e);
    constant_from(k, e, c)
}

fn or_one(given: bool, value: u32) -> u32
    ensures { result ≡ pick given value 1 }
{
    if given {
        return value;
    }
    1
}

// The cell identifier of good index and parts.
fn cell_took(k: usize, i: Numeral, o: Suffix, w: Suffix, c: Suffix) -> Took<Token>
    ensures { result ≡ cell_took k i o w c }
{
    let parts = written_parts(o.given, w.given, c.given);
    let width = or_one(w.given, w.value);
    Ok((
        Token {
            sort: 8,
            place: Place { at: k },
            value: i.value,
            from: 0,
            size: 0,
            parts,
            offset: o.value,
            width,
            count: c.value,
        },
        Reader {
            next: Place { at: c.end },
        },
    ))
}

// The cell identifier whose index i begins at `from`, with its parts.
fn cell_from(k: usize, from: usize, i: Numeral, o: Suffix, w: Suffix, c: Suffix) -> Took<Token>
    requires { from ≡ k + 1 }
    ensures { result ≡ cell_from k i o w c }
{
    if i.end == from || o.broken || w.broken || c.broken {
        return refused(5, k);
    }
    if i.large || o.large || w.large || c.large {
        return refused(6, k);
    }
    cell_took(k, i, o, w, c)
}

// `:_` at a place.
fn opens_placeholder(text: &[u8], k: usize) -> bool
    ensures { (result ≡ opens_placeholder text.now k) × (result ≡ true → k + 1 < length text.now) }
{
    let b = byte_at(text, k);
    if b == 58 {
        let n = byte_at(text, k + 1);
        if n == 95 {
            return true;
        }
        return false;
    }
    false
}

// Any cell identifier or placeholder: a part further on may be malformed where one before it is too large.
#[tactic(auto, unfolding(crate::specs::Tokens::cell_of))]
fn cell_any(text: &[u8], k: usize) -> Took<Token>
    requires { k < length text.now }
    ensures { result ≡ cell_of text.now k }
{
    let from = k + 1;
    let i = numeral_at(text, from, 65535);
    let end = i.end;
    if opens_placeholder(text, end) {
        return one_numeral(10, k, from, i, i.value, end + 2);
    }
    let o = offset_at(text, end);
    let w = width_at(text, o.end);
    let c = count_at(text, w.end);
    cell_from(k, from, i, o, w, c)
}

// An index that no refusal and no placeholder comes of.
fn good_index(text: &[u8], from: usize, i: Numeral) -> bool
    ensures { result ≡ not (eqb i.end from || (i.large || opens_placeholder text.now i.end)) }
{
    let end = i.end;
    if end == from {
        return false;
    }
    if i.large {
        return false;
    }
    if opens_placeholder(text, end) {
        return false;
    }
    true
}

// A part that no refusal comes of.
fn good_part(s: Suffix) -> bool
    ensures { result ≡ not (s.broken || s.large) }
{
    if s.broken {
        return false;
    }
    if s.large {
        return false;
    }
    true
}

// A cell identifier whose parts are good as they are read needs no look back at them. Anything else is read again.
fn cell(text: &[u8], k: usize) -> Took<Token>
    requires { k < length text.now }
    ensures { result ≡ cell_of text.now k }
{
    let from = k + 1;
    let i = numeral_at(text, from, 65535);
    let end = i.end;
    if good_index(text, from, i) {
        let o = offset_at(text, end);
        if good_part(o) {
            let w = width_at(text, o.end);
            if good_part(w) {
                let c = count_at(text, w.end);
                if good_part(c) {
                    return cell_took(k, i, o, w, c);
                }
            }
        }
    }
    cell_any(text, k)
}

// The first end where the first part is written.
fn later(given: bool, a: usize, b: usize) -> usize
    ensures { result ≡ pick given a b }
{
    if given {
        return a;
    }
    b
}

// The name of `size` bytes that begins at `from`, with its parts.
fn io_from(k: usize, from: usize, size: usize, o: Suffix, w: Suffix) -> Took<Token>
    requires { from ≡ k + 2 }
    ensures { result ≡ io_from k size o w }
{
    if o.broken || w.broken {
        return refused(5, k);
    }
    if o.large || w.large {
        return refused(6, k);
    }
    let parts = written_parts(o.given, w.given, false);
    let end = later(o.given, o.end, w.end);
    Ok((
        Token {
            sort: 7,
            place: Place { at: k },
            value: 0,
            from,
            size,
            parts,
            offset: o.value,
            width: w.value,
            count: 0,
        },
        Reader {
            next: Place { at: end },
        },
    ))
}

fn named(t: &Classes, text: &[u8], k: usize) -> Took<Token>
    requires { k < length text.now }
    ensures { result ≡ named_from text.now k (quoted_at text.now (k + 2)) }
{
    let from = k + 2;
    match quoted_at(t, text, from) {
        Some((size, end)) => {
            let o = offset_at(text, end);
            let w = width_at(text, end);
            io_from(k, from, size, o, w)
        }
        None => refused(5, k),
    }
}

fn floating(k: usize, w: Suffix) -> Took<Token>
    ensures { result ≡ floating_from k w }
{
    if w.broken {
        return refused(5, k);
    }
    if w.large {
        return refused(6, k);
    }
    let parts = written_parts(false, w.given, false);
    Ok((
        Token {
            sort: 11,
            place: Place { at: k },
            value: 0,
            from: 0,
            size: 0,
            parts,
            offset: 0,
            width: w.value,
            count: 0,
        },
        Reader {
            next: Place { at: w.end },
        },
    ))
}

#[tactic(auto, unfolding(crate::specs::Tokens::io_of))]
fn io(t: &Classes, text: &[u8], k: usize) -> Took<Token>
    requires { k < length text.now }
    ensures { result ≡ io_of text.now k }
{
    let b = byte_at(text, k + 1);
    if b == 95 {
        let w = width_at(text, k + 2);
        return floating(k, w);
    }
    if b == 34 {
        return named(t, text, k);
    }
    refused(5, k)
}

// A token that the byte b begins and that is no line end and no special character. Most are cell identifiers, so these are asked
// for first.
fn long(t: &Classes, text: &[u8], k: usize, b: u8) -> Took<Token>
    requires { k < length text.now }
    ensures { result ≡ long_of text.now k b }
{
    if b == 37 {
        return cell(text, k);
    }
    if in_classes(t, 7, 8, b) {
        return word(t, text, k);
    }
    if in_classes(t, 5, 6, b) {
        return constant(t, text, k);
    }
    if b == 35 {
        return number(text, k);
    }
    if b == 33 {
        return meta(text, k);
    }
    if b == 38 {
        return io(t, text, k);
    }
    if b == 34 {
        return string(t, text, k);
    }
    refused(5, k)
}

// Whether a token at a place stands right behind another.
pub fn adjoins(t: &Classes, text: &[u8], k: usize) -> bool
    ensures { result ≡ follows text.now k }
{
    if k == 0 {
        return false;
    }
    let before = t.class_at(byte_at(text, k - 1));
    if between(1, 2, before) {
        return false;
    }
    if before == 15 {
        return false;
    }
    true
}

fn wide(b: u8) -> u32
    ensures { result ≡ b }
{
    b as u32
}

// The token at a place where no white space stands.
fn standing(t: &Classes, text: &[u8], k: usize) -> Took<Token>
    ensures { result ≡ standing_at text.now k }
{
    if text.len() <= k {
        return took_plain(1, k, 0, 0, 0, k);
    }
    let b = text[k];
    let c = t.class_at(b);
    if c == 2 {
        return took_plain(0, k, 0, 0, 0, k + 1);
    }
    if b == 13 {
        return took_plain(0, k, 0, 0, 0, k + 2);
    }
    if b == 59 {
        let end = comment_end(t, text, k + 1);
        return took_plain(0, k, 0, 0, 0, end);
    }
    if c == 15 {
        return took_plain(2, k, wide(b), 0, 0, k + 1);
    }
    if adjoins(t, text, k) {
        return refused(5, k);
    }
    long(t, text, k, b)
}

impl Reader {
    // The next token, where line ends are tokens, with a lent table.
    #[tactic(auto, unfolding(crate::specs::Tokens::token_at))]
    pub fn next_with(self, t: &Classes, text: &[u8]) -> Took<Token>
        ensures { result ≡ token_at text.now self.next.at }
    {
        let from = self.next.at;
        let k = span(t, text, from, 1, 1);
        standing(t, text, k)
    }

    // The next token between brackets, where line ends and comments are white space, with a lent table.
    #[tactic(auto, unfolding(crate::specs::Tokens::inside_at))]
    pub fn inside_with(self, t: &Classes, text: &[u8]) -> Took<Token>
        ensures { result ≡ inside_at text.now self.next.at }
    {
        let from = self.next.at;
        let k = inside_end(t, text, from);
        standing(t, text, k)
    }

    pub fn next(self, text: &[u8]) -> Took<Token>
        ensures { result ≡ token_at text.now self.next.at }
    {
        let t = Classes::new();
        self.next_with(&t, text)
    }

    pub fn next_inside(self, text: &[u8]) -> Took<Token>
        ensures { result ≡ inside_at text.now self.next.at }
    {
        let t = Classes::new();
        self.inside_with(&t, text)
    }
}
