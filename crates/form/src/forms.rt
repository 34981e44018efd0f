// The form of a declaration, token by token from the left. Each function is one definition; what it takes goes on with the place behind it.
ghost use Rattle.std.specs.Prelude.{◌≡◌, true, ◌≤◌, length, Ok, Err};
ghost use Rattle.ground.specs.Choice.{pick};
ghost use Rattle.ground.specs.Refusals.{refusal};
ghost use Rattle.signs.specs.Bytes.{is_special};
ghost use Rattle.lexis.specs.Tokens.{token_at, inside_at};
ghost use Rattle.brackets.specs.Words.{is_mark, is_spelled};
ghost use Rattle.brackets.specs.Parts.{no_ref, no_operand};
ghost use Rattle.form.specs.Forms.{only, mark_at, sort_at, ended, set_form, inside_number, point_at, source_form, link_of, link_at, option_at, is_label, label_of, scope_form, ident_form, is_alone, is_payload, payload_of, attr_form, no_keyword, meta_form, io_form, operand_if, meta_if, wiring_form, named_form, cell_form, opens, body_form, is_opening, no_opening, open_form, form_at, form_of};

use crate::{Decl, Declared, Form, Label, Payload, Point, Range, Wiring};
use brackets::{Members, Operand, Ref, Str};
use enclosed::measures::operand_at;
use ground::{Place, Refusal};
use keywords::{is_mark, is_sort, is_word, kind_of};
use kinds::{has_name, operands_of};
use lexis::{Reader, Token, Took};
use sets::set_at;
use signs::classes::Classes;
use spots::byte_with;
use tokenparts::{mark_before, ref_of, str_of};

// A token that is taken where it is allowed: else 7 at its place.
fn allowed(ok: bool, token: Token, reader: Reader) -> Took<Token>
    ensures { result ≡ pick ok (Ok (token, reader)) (Err (refusal 7 token.place)) }
{
    let place = token.place;
    if ok {
        return Ok((token, reader));
    }
    Err(Refusal { number: 7, place })
}

// The special character that must stand next, by its token.
fn mark_token(t: &Classes, text: &[u8], b: u8, reader: Reader) -> Took<Token>
    ensures { result ≡ mark_at text.now b reader.next.at }
{
    let (token, r) = reader.next_with(t, text)?;
    allowed(is_mark(b, token), token, r)
}

// The special character that must stand next. Where it does, no token is made of it.
fn mark_at(t: &Classes, text: &[u8], b: u8, reader: Reader) -> Took<Token>
    requires { is_special b ≡ true }
    ensures { result ≡ mark_at text.now b reader.next.at }
{
    let end = byte_with(t, text, reader, b);
    if 0 < end {
        return mark_before(b, end);
    }
    mark_token(t, text, b, reader)
}

// The token of a sort that must stand next.
fn sort_at(t: &Classes, text: &[u8], sort: u8, reader: Reader) -> Took<Token>
    ensures { result ≡ sort_at text.now sort reader.next.at }
{
    let (token, r) = reader.next_with(t, text)?;
    allowed(is_sort(sort, token), token, r)
}

// The word that must stand next.
fn word_at(t: &Classes, text: &[u8], word: &[u8], reader: Reader) -> Took<Token>
    ensures { result ≡ only (is_spelled text.now word.now) (token_at text.now reader.next.at) }
{
    let (token, r) = reader.next_with(t, text)?;
    allowed(is_word(text, token, word), token, r)
}

// The number that must stand next between brackets.
fn inside_number(t: &Classes, text: &[u8], reader: Reader) -> Took<Token>
    ensures { result ≡ inside_number text.now reader.next.at }
{
    let (token, r) = reader.inside_with(t, text)?;
    allowed(is_sort(5, token), token, r)
}

fn closing_at(t: &Classes, text: &[u8], reader: Reader) -> Took<Token>
    ensures { result ≡ only (is_mark 41) (inside_at text.now reader.next.at) }
{
    let (token, r) = reader.inside_with(t, text)?;
    allowed(is_mark(41, token), token, r)
}

// The declaration that the token opened, where its line ends here by a token.
fn ended_by(t: &Classes, text: &[u8], token: Token, decl: Decl, reader: Reader) -> Form
    ensures { result ≡ ended text.now token decl reader.next.at }
{
    let place = token.place;
    let index = token.value;
    let (_, r) = sort_at(t, text, 0, reader)?;
    Ok(Some((Declared { place, index, decl }, r)))
}

// The declaration that the token opened, where its line ends here: most lines end with a line feed right there.
fn ended(t: &Classes, text: &[u8], token: Token, decl: Decl, reader: Reader) -> Form
    ensures { result ≡ ended text.now token decl reader.next.at }
{
    let place = token.place;
    let index = token.value;
    let end = byte_with(t, text, reader, 10);
    if 0 < end {
        let next = Place { at: end };
        return Ok(Some((Declared { place, index, decl }, Reader { next })));
    }
    ended_by(t, text, token, decl, reader)
}

#[tactic(auto, unfolding(crate::specs::Forms::set_form))]
fn set_form(t: &Classes, text: &[u8], token: Token, reader: Reader) -> Form
    requires { length text.now ≤ 65536 }
    ensures { result ≡ set_form text.now token reader.next.at }
{
    let at = reader.next.at;
    let (count, r) = set_at(t, text, reader)?;
    ended(t, text, token, Decl::Set(Members { at, count }), r)
}

#[tactic(auto, using(lexis::proofs::Links::open_special), unfolding(crate::specs::Forms::point_at))]
fn point_at(t: &Classes, text: &[u8], reader: Reader) -> Took<Point>
    ensures { result ≡ point_at text.now reader.next.at }
{
    let (_, r1) = mark_at(t, text, 40, reader)?;
    let (l, r2) = inside_number(t, text, r1)?;
    let (c, r3) = inside_number(t, text, r2)?;
    let (_, r4) = closing_at(t, text, r3)?;
    Ok((
        Point {
            line: l.value,
            column: c.value,
        },
        r4,
    ))
}

#[tactic(auto, unfolding(crate::specs::Forms::source_form))]
fn source_form(t: &Classes, text: &[u8], token: Token, reader: Reader) -> Form
    ensures { result ≡ source_form text.now token reader.next.at }
{
    let (file, r1) = sort_at(t, text, 9, reader)?;
    let (first, r2) = point_at(t, text, r1)?;
    let (last, r3) = point_at(t, text, r2)?;
    let range = Range { first, last };
    ended(t, text, token, Decl::Source(str_of(file), range), r3)
}

fn link_from(t: &Classes, text: &[u8], reader: Reader) -> Took<Ref>
    ensures { result ≡ link_of (sort_at text.now 6 reader.next.at) }
{
    let (token, r) = sort_at(t, text, 6, reader)?;
    Ok((ref_of(token), r))
}

// `=!m` behind an option's word.
#[tactic(auto, using(lexis::proofs::Links::equals_special), unfolding(crate::specs::Forms::link_at))]
fn link_at(t: &Classes, text: &[u8], reader: Reader) -> Took<Ref>
    ensures { result ≡ link_at text.now reader.next.at }
{
    let (_, r) = mark_at(t, text, 61, reader)?;
    link_from(t, text, r)
}

fn no_ref() -> Ref
    ensures { result ≡ no_ref }
{
    Ref {
        given: false,
        index: 0,
        place: Place { at: 0 },
    }
}

// An option that may be left out.
#[tactic(auto, unfolding(crate::specs::Forms::option_at))]
fn option_at(t: &Classes, text: &[u8], word: &[u8], reader: Reader) -> Took<Ref>
    ensures { result ≡ option_at text.now word.now reader.next.at }
{
    let (token, r) = reader.next_with(t, text)?;
    if is_word(text, token, word) {
        return link_at(t, text, r);
    }
    Ok((no_ref(), reader))
}

fn label_at(t: &Classes, text: &[u8], reader: Reader) -> Took<Token>
    ensures { result ≡ only is_label (token_at text.now reader.next.at) }
{
    let (token, r) = reader.next_with(t, text)?;
    if is_sort(9, token) {
        return Ok((token, r));
    }
    allowed(is_sort(5, token), token, r)
}

fn label_of(token: Token) -> Label
    ensures { result ≡ label_of token }
{
    if is_sort(9, token) {
        return Label::Named(str_of(token));
    }
    Label::Indexed(token.value)
}

#[tactic(auto, unfolding(crate::specs::Forms::scope_form, ground::specs::Text::bytes))]
fn scope_form(t: &Classes, text: &[u8], token: Token, reader: Reader) -> Form
    ensures { result ≡ scope_form text.now token reader.next.at }
{
    let (n, r1) = label_at(t, text, reader)?;
    let (inside, r2) = option_at(t, text, b"in", r1)?;
    let (source, r3) = option_at(t, text, b"src", r2)?;
    let decl = Decl::Scope(label_of(n), inside, source);
    ended(t, text, token, decl, r3)
}

#[tactic(auto, unfolding(crate::specs::Forms::ident_form, ground::specs::Text::bytes))]
fn ident_form(t: &Classes, text: &[u8], token: Token, reader: Reader) -> Form
    ensures { result ≡ ident_form text.now token reader.next.at }
{
    let (n, r1) = sort_at(t, text, 9, reader)?;
    let (_, r2) = word_at(t, text, b"in", r1)?;
    let (inside, r3) = link_at(t, text, r2)?;
    ended(t, text, token, Decl::Ident(str_of(n), inside), r3)
}

// A constant that is not repeated.
fn is_alone(token: Token) -> bool
    ensures { result ≡ is_alone token }
{
    if is_sort(4, token) {
        return token.parts == 0;
    }
    false
}

// A constant alone, a number or a string.
fn is_payload(token: Token) -> bool
    ensures { result ≡ is_payload token }
{
    if is_alone(token) {
        return true;
    }
    if is_sort(5, token) {
        return true;
    }
    is_sort(9, token)
}

fn payload_of(token: Token) -> Payload
    ensures { result ≡ payload_of token }
{
    if is_sort(4, token) {
        return Payload::Bits(str_of(token));
    }
    if is_sort(5, token) {
        return Payload::Integer(token.value);
    }
    Payload::Text(str_of(token))
}

fn payload_at(t: &Classes, text: &[u8], reader: Reader) -> Took<Token>
    ensures { result ≡ only is_payload (token_at text.now reader.next.at) }
{
    let (token, r) = reader.next_with(t, text)?;
    allowed(is_payload(token), token, r)
}

#[tactic(auto, unfolding(crate::specs::Forms::attr_form))]
fn attr_form(t: &Classes, text: &[u8], token: Token, reader: Reader) -> Form
    ensures { result ≡ attr_form text.now token reader.next.at }
{
    let (n, r1) = sort_at(t, text, 9, reader)?;
    let (p, r2) = payload_at(t, text, r1)?;
    let decl = Decl::Attr(str_of(n), payload_of(p));
    ended(t, text, token, decl, r2)
}

// A word that is no keyword there is 8; what is no word there is 7.
fn no_keyword(word: Token) -> Form
    ensures { result ≡ no_keyword word }
{
    let place = word.place;
    if is_sort(3, word) {
        return Err(Refusal { number: 8, place });
    }
    Err(Refusal { number: 7, place })
}

#[tactic(auto, unfolding(crate::specs::Forms::meta_form, ground::specs::Text::bytes))]
fn meta_form(t: &Classes, text: &[u8], token: Token, word: Token, reader: Reader) -> Form
    requires { length text.now ≤ 65536 }
    ensures { result ≡ meta_form text.now token word reader.next.at }
{
    if is_mark(123, word) {
        return set_form(t, text, token, reader);
    }
    if is_word(text, word, b"source") {
        return source_form(t, text, token, reader);
    }
    if is_word(text, word, b"scope") {
        return scope_form(t, text, token, reader);
    }
    if is_word(text, word, b"ident") {
        return ident_form(t, text, token, reader);
    }
    if is_word(text, word, b"attr") {
        return attr_form(t, text, token, reader);
    }
    no_keyword(word)
}

#[tactic(auto, unfolding(crate::specs::Forms::io_form, ground::specs::Text::bytes))]
fn io_form(t: &Classes, text: &[u8], token: Token, word: Token, reader: Reader) -> Form
    ensures { result ≡ io_form text.now token word reader.next.at }
{
    if is_word(text, word, b"io") {
        let width = token.width;
        return ended(t, text, token, Decl::Io(str_of(token), width), reader);
    }
    no_keyword(word)
}

fn no_operand() -> Operand
    ensures { result ≡ no_operand }
{
    Operand {
        given: false,
        at: 0,
        width: 0,
    }
}

// An operand that the keyword may not have.
#[tactic(auto, unfolding(crate::specs::Forms::operand_if))]
fn operand_if(given: bool, t: &Classes, text: &[u8], reader: Reader) -> Took<Operand>
    requires { length text.now ≤ 65536 }
    ensures { result ≡ operand_if given text.now reader.next.at }
{
    if given {
        return operand_at(t, text, reader);
    }
    Ok((no_operand(), reader))
}

// One `!m` at the end of a cell, or none.
#[tactic(auto, unfolding(crate::specs::Forms::meta_if))]
fn meta_if(t: &Classes, text: &[u8], reader: Reader) -> Took<Ref>
    ensures { result ≡ meta_if text.now reader.next.at }
{
    let (token, r) = reader.next_with(t, text)?;
    if is_sort(6, token) {
        return Ok((ref_of(token), r));
    }
    Ok((no_ref(), reader))
}

#[tactic(auto, unfolding(crate::specs::Forms::wiring_form))]
fn wiring_form(t: &Classes, text: &[u8], token: Token, kind: u8, name: Str, reader: Reader) -> Form
    requires { length text.now ≤ 65536 }
    ensures { result ≡ wiring_form text.now token kind name reader.next.at }
{
    let count = operands_of(kind);
    let (a, r1) = operand_if(1 <= count, t, text, reader)?;
    let (b, r2) = operand_if(2 <= count, t, text, r1)?;
    let (c, r3) = operand_if(3 <= count, t, text, r2)?;
    let (meta, r4) = meta_if(t, text, r3)?;
    let width = token.width;
    let decl = Decl::Cell(Wiring {
        kind,
        width,
        name,
        a,
        b,
        c,
        meta,
    });
    ended(t, text, token, decl, r4)
}

#[tactic(auto, unfolding(crate::specs::Forms::named_form))]
fn named_form(t: &Classes, text: &[u8], token: Token, kind: u8, reader: Reader) -> Form
    requires { length text.now ≤ 65536 }
    ensures { result ≡ named_form text.now token kind reader.next.at }
{
    let (n, r) = sort_at(t, text, 9, reader)?;
    wiring_form(t, text, token, kind, str_of(n), r)
}

#[tactic(auto, unfolding(crate::specs::Forms::cell_form))]
fn cell_form(t: &Classes, text: &[u8], token: Token, word: Token, reader: Reader) -> Form
    requires { length text.now ≤ 65536 }
    ensures { result ≡ cell_form text.now token word reader.next.at }
{
    let kind = kind_of(text, word);
    if kind == 0 {
        return no_keyword(word);
    }
    if has_name(kind) {
        return named_form(t, text, token, kind, reader);
    }
    let name = Str { from: 0, size: 0 };
    wiring_form(t, text, token, kind, name, reader)
}

// `%n:w` and `&"s":w` open a declaration only with `:w` and nothing else.
fn opens(sort: u8, token: Token) -> bool
    ensures { result ≡ opens sort token }
{
    if is_sort(sort, token) {
        return token.parts == 2;
    }
    false
}

#[tactic(auto, using(lexis::proofs::Links::equals_special), unfolding(crate::specs::Forms::body_form))]
fn body_form(t: &Classes, text: &[u8], token: Token, reader: Reader) -> Form
    requires { length text.now ≤ 65536 }
    ensures { result ≡ body_form text.now token reader.next.at }
{
    let (_, r1) = mark_at(t, text, 61, reader)?;
    let (word, r2) = r1.next_with(t, text)?;
    if is_sort(6, token) {
        return meta_form(t, text, token, word, r2);
    }
    if is_sort(7, token) {
        return io_form(t, text, token, word, r2);
    }
    cell_form(t, text, token, word, r2)
}

// The token opens a declaration.
fn is_opening(token: Token) -> bool
    ensures { result ≡ is_opening token }
{
    if is_sort(6, token) {
        return true;
    }
    if opens(7, token) {
        return true;
    }
    opens(8, token)
}

// A placeholder or `set` where a declaration opens is 8, any other token that opens none is 7.
#[tactic(auto, unfolding(ground::specs::Text::bytes))]
fn no_opening(text: &[u8], token: Token) -> u8
    ensures { result ≡ no_opening text.now token }
{
    if is_sort(10, token) {
        return 8;
    }
    if is_word(text, token, b"set") {
        return 8;
    }
    7
}

#[tactic(auto, unfolding(crate::specs::Forms::open_form, ground::specs::Text::bytes))]
fn open_form(t: &Classes, text: &[u8], token: Token, reader: Reader) -> Form
    requires { length text.now ≤ 65536 }
    ensures { result ≡ open_form text.now token reader.next.at }
{
    if is_sort(1, token) {
        return Ok(None);
    }
    if is_opening(token) {
        return body_form(t, text, token, reader);
    }
    let place = token.place;
    let number = no_opening(text, token);
    Err(Refusal { number, place })
}

// The next declaration, with a lent table and a text that is no longer than its limit.
#[tactic(auto, unfolding(crate::specs::Forms::form_at))]
pub fn declaration_with(t: &Classes, text: &[u8], reader: Reader) -> Form
    requires { length text.now ≤ 65536 }
    ensures { result ≡ form_at text.now reader.next.at }
{
    let (token, r) = reader.inside_with(t, text)?;
    open_form(t, text, token, r)
}

// The next declaration of any text.
#[tactic(auto, unfolding(crate::specs::Forms::form_of))]
pub fn declaration(text: &[u8], reader: Reader) -> Form
    ensures { result ≡ form_of text.now reader.next.at }
{
    if 65536 < text.len() {
        return Err(Refusal {
            number: 2,
            place: Place { at: 65536 },
        });
    }
    let t = Classes::new();
    declaration_with(&t, text, reader)
}
