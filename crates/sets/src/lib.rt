// Sets between their braces, read member by member and measured. It promises that each member, each number of members and each refusal
// 5 to 7 is the one that the definitions of brackets give. The form of declarations stands above it, tokens, parts and words below.
#![tactic(auto)]

ghost use Rattle.std.specs.Prelude.{◌≡◌, ◌-◌, ◌<◌, ◌≤◌, length, Ok};
ghost use Rattle.brackets.specs.Parts.{membered_of, next_member, set_end, set_at};

use brackets::{Membered, Ref};
use ground::{Place, Refusal};
use keywords::{is_mark, is_sort};
use lexis::{Reader, Token, Took};
use signs::classes::Classes;
use spots::link_with;
use tokenparts::ref_of;

// What stands next between the brackets of a set, by its token.
#[tactic(auto, unfolding(brackets::specs::Parts::next_member))]
fn member_by(t: &Classes, text: &[u8], reader: Reader) -> Took<Membered>
    ensures { result ≡ next_member text.now reader.next.at }
{
    let (token, r) = reader.inside_with(t, text)?;
    membered(token, r)
}

// What stands next between the brackets of a set. A reference is taken by its index: a token of it costs more.
pub fn next_member(t: &Classes, text: &[u8], reader: Reader) -> Took<Membered>
    ensures { result ≡ next_member text.now reader.next.at }
{
    if let Some(link) = link_with(t, text, reader) {
        let index = link.index;
        let place = Place { at: link.at };
        let next = Place { at: link.end };
        let given = true;
        return Ok((
            Membered::Took(Ref {
                given,
                index,
                place,
            }),
            Reader { next },
        ));
    }
    member_by(t, text, reader)
}

fn membered(token: Token, reader: Reader) -> Took<Membered>
    ensures { result ≡ membered_of (Ok (token, reader)) }
{
    if is_sort(6, token) {
        return Ok((Membered::Took(ref_of(token)), reader));
    }
    Ok((Membered::Other(token), reader))
}

fn set_end(count: u64, token: Token, reader: Reader) -> Took<u64>
    ensures { result ≡ set_end count token reader }
{
    let place = token.place;
    if is_mark(125, token) {
        return Ok((count, reader));
    }
    Err(Refusal { number: 7, place })
}

// The number of members of a set whose `{` is read. Each takes a byte at least, so the text's length bounds their number.
pub fn set_at(t: &Classes, text: &[u8], reader: Reader) -> Took<u64>
    requires { length text.now ≤ 65536 }
    ensures { result ≡ set_at text.now reader.next.at }
{
    let mut next = reader;
    for count in 0..text.len() + 1 {
        if let Some(link) = link_with(t, text, next) {
            next = Reader {
                next: Place { at: link.end },
            };
            continue;
        }
        let (token, r) = next.inside_with(t, text)?;
        if is_sort(6, token) {
            next = r;
        } else {
            return set_end(count as u64, token, r);
        }
    }
    let place = next.next;
    Err(Refusal { number: 7, place })
}
