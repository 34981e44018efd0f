// Quick ways past whole tokens: a cell piece or a reference between brackets by its numbers, and one byte behind white space. It promises
// what the definitions of lexis give of the token that stands there. Lexis stands below it; what stands between brackets above.
#![tactic(auto)]

ghost use Rattle.std.specs.Prelude.{◌≡◌, ◌<◌, length};
ghost use Rattle.signs.specs.Pieces.{suffix_at};
ghost use Rattle.lexis.specs.Tokens.{meta_of, cell_of, part_or, no_spot, spot_of, spot_at, link_of, link_at, byte_end};

use lexis::tokens::adjoins;
use lexis::{Link, Reader, Spot};
use numerals::numeral_at;
use signs::classes::Classes;
use signs::pieces::{Numeral, byte_at};
use spans::{inside_end, span};

fn no_spot(closed: bool) -> Spot
    ensures { result ≡ no_spot closed }
{
    Spot {
        found: false,
        closed,
        cell: 0,
        offset: 0,
        width: 0,
        end: 0,
    }
}

// The part behind a mark, or a value where it is not written; `large` also where its digits are missing.
#[tactic(auto, unfolding(signs::specs::Pieces::suffix_at))]
fn part_or(text: &[u8], mark: u8, at: usize, value: u32) -> Numeral
    requires { 0 < mark }
    ensures { result ≡ part_or value (suffix_at text.now mark at) }
{
    let b = byte_at(text, at);
    if b == mark {
        let from = at + 1;
        let d = numeral_at(text, from, 65535);
        let end = d.end;
        if end == from {
            return Numeral {
                value: d.value,
                large: true,
                end,
            };
        }
        return d;
    }
    Numeral {
        value,
        large: false,
        end: at,
    }
}

// The numbers of the cell identifier at a place. What is read as a token only is none.
fn cell_spot(text: &[u8], k: usize) -> Spot
    requires { k < length text.now }
    ensures { result ≡ spot_of (cell_of text.now k) }
{
    let from = k + 1;
    let i = numeral_at(text, from, 65535);
    let behind = i.end;
    if behind == from {
        return no_spot(false);
    }
    if i.large {
        return no_spot(false);
    }
    let o = part_or(text, 43, behind, 0);
    if o.large {
        return no_spot(false);
    }
    let w = part_or(text, 58, o.end, 1);
    if w.large {
        return no_spot(false);
    }
    let end = w.end;
    if byte_at(text, end) == 42 {
        return no_spot(false);
    }
    Spot {
        found: true,
        closed: false,
        cell: i.value,
        offset: o.value,
        width: w.value,
        end,
    }
}

// The reference at a place.
#[tactic(auto, unfolding(lexis::specs::Tokens::meta_of))]
fn meta_link(text: &[u8], k: usize) -> Option<Link>
    requires { k < length text.now }
    ensures { result ≡ link_of (meta_of text.now k) }
{
    let from = k + 1;
    let i = numeral_at(text, from, 65535);
    let end = i.end;
    if end == from {
        return None;
    }
    if i.large {
        return None;
    }
    Some(Link {
        index: i.value,
        at: k,
        end,
    })
}

// The next cell identifier between brackets by its numbers: a token of each piece costs more than the laying of it.
#[tactic(auto, unfolding(lexis::specs::Tokens::spot_at))]
pub fn spot_with(t: &Classes, text: &[u8], reader: Reader) -> Spot
    ensures { result ≡ spot_at text.now reader.next.at }
{
    let from = reader.next.at;
    let k = inside_end(t, text, from);
    let b = byte_at(text, k);
    if b == 37 {
        if adjoins(t, text, k) {
            return no_spot(false);
        }
        return cell_spot(text, k);
    }
    no_spot(b == 93)
}

// The next reference between brackets by its index: members of sets are read three times, and a token of each costs more.
#[tactic(auto, unfolding(lexis::specs::Tokens::link_at))]
pub fn link_with(t: &Classes, text: &[u8], reader: Reader) -> Option<Link>
    ensures { result ≡ link_at text.now reader.next.at }
{
    let from = reader.next.at;
    let k = inside_end(t, text, from);
    let b = byte_at(text, k);
    if b == 33 {
        if adjoins(t, text, k) {
            return None;
        }
        return meta_link(text, k);
    }
    None
}

// The place past the byte b where that is the next one after white space; 0 where it is not.
#[tactic(auto, unfolding(lexis::specs::Tokens::byte_end))]
pub fn byte_with(t: &Classes, text: &[u8], reader: Reader, b: u8) -> usize
    requires { 0 < b }
    ensures { result ≡ byte_end text.now b reader.next.at }
{
    let from = reader.next.at;
    let k = span(t, text, from, 1, 1);
    let c = byte_at(text, k);
    if c == b {
        return k + 1;
    }
    0
}
