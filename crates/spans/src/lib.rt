// Spans: where bytes of one kind end, and comments, and white space between brackets. Each function reads the text once, from a place
// on, with the lent table of classes. It promises the places that the definitions of signs give. Tokens stand above it.
#![tactic(auto)]

ghost use Rattle.std.specs.Prelude.{◌≡◌, true, false, ◌+◌, ◌<◌, ◌≤◌, eqb, length, drop};
ghost use Rattle.signs.specs.Bytes.{among};
ghost use Rattle.signs.specs.Pieces.{span_end, comment_end, inside_move, inside_end};

use signs::classes::Classes;
use signs::pieces::{between, in_classes};

// The place past the bytes of a range of classes.
pub fn span(t: &Classes, text: &[u8], at: usize, low: u8, high: u8) -> usize
    ensures { (result ≡ span_end (among low high) (drop at text.now) at) × (at ≤ result) }
{
    let mut i = at;
    // By `while`: the place where it ends is the answer, whether a byte ended it or the text; a `for` would tell that place twice.
    while i < text.len() {
        let b = text[i];
        if in_classes(t, low, high, b) {
            i += 1;
        } else {
            return i;
        }
    }
    i
}

// The place past the line feed that ends a comment.
pub fn comment_end(t: &Classes, text: &[u8], at: usize) -> usize
    requires { at ≤ length text.now }
    ensures { result ≡ comment_end (drop at text.now) at }
{
    let mut i = at;
    // By `while`: the place where it ends is the answer, whether a byte ended it or the text; a `for` would tell that place twice.
    while i < text.len() {
        let b = text[i];
        if t.class_at(b) == 2 {
            return i + 1;
        }
        i += 1;
    }
    i + 1
}

// What a byte of the class c is between brackets: 0 begins a token, 1 is white space, 2 begins a comment or stands in one.
fn inside_move(noted: bool, c: u8) -> u8
    ensures { result ≡ inside_move noted c }
{
    if noted {
        if c == 2 {
            return 1;
        }
        return 2;
    }
    if between(1, 3, c) {
        return 1;
    }
    if c == 14 {
        return 2;
    }
    0
}

// The line feed that ends a comment, or the end of the text. Most bytes that are passed between brackets stand in comments, so these
// have a loop of their own.
fn comment_past(t: &Classes, text: &[u8], at: usize) -> usize
    ensures { (inside_end (drop result text.now) false result ≡ inside_end (drop at text.now) true at) × (at ≤ result) }
{
    let mut i = at;
    // By `while`: the place where it ends is the answer, whether a byte ended it or the text; a `for` would tell that place twice.
    while i < text.len() {
        let b = text[i];
        let m = inside_move(true, t.class_at(b));
        if m == 1 {
            return i;
        }
        i += 1;
    }
    i
}

// Behind a byte that makes the move m: a comment is passed.
fn behind_move(t: &Classes, text: &[u8], m: u8, at: usize) -> usize
    ensures { (inside_end (drop result text.now) false result ≡ inside_end (drop at text.now) (eqb m 2) at) × (at ≤ result) }
{
    if m == 2 {
        return comment_past(t, text, at);
    }
    at
}

// The place of the next token between brackets.
pub fn inside_end(t: &Classes, text: &[u8], at: usize) -> usize
    ensures { result ≡ inside_end (drop at text.now) false at }
{
    let mut i = at;
    // By `while`: a step is a byte or a whole comment.
    while i < text.len() {
        let b = text[i];
        let m = inside_move(false, t.class_at(b));
        if m == 0 {
            return i;
        }
        i = behind_move(t, text, m, i + 1);
    }
    i
}
