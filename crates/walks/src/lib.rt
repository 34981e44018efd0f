// Walks: the parts of an operand again, one a step, in a text of any length. It promises that step by step they are the parts that the
// definitions of brackets give. It asks for no table of classes, since a walk comes only where a piece may not resolve or a part has no
// bits. Resolving stands above it.
#![tactic(auto)]

ghost use Rattle.std.specs.Prelude.{◌≡◌, ◌<◌};
ghost use Rattle.brackets.specs.Walks.{walk_from, walk_of, walk_on, walk_step};

use brackets::{Operand, Part, Parted, Walk};
use enclosed::measures::next_part;
use ground::Place;
use lexis::{Reader, Token, Took};
use tokenparts::{is_part, part_of};

// The walk over an operand, by its first token.
fn walk_from(text: &[u8], first: Took<Token>) -> Walk
    ensures { result ≡ walk_from text.now first }
{
    match first {
        Err(_) => Walk::Past,
        Ok((token, r)) => {
            let place = token.place;
            if is_part(token) {
                return Walk::Alone(part_of(token), place);
            }
            Walk::Within(r, text.len() + 1)
        }
    }
}

// The walk over the parts of an operand, the most significant first.
#[tactic(auto, unfolding(brackets::specs::Walks::walk_of))]
pub fn operand_walk(text: &[u8], operand: Operand) -> Walk
    ensures { result ≡ walk_of text.now operand }
{
    let at = operand.at;
    if operand.given {
        let reader = Reader { next: Place { at } };
        return walk_from(text, reader.next(text));
    }
    Walk::Past
}

fn walk_on(left: usize, found: Took<Parted>) -> Option<(Part, Place, Walk)>
    requires { 0 < left }
    ensures { result ≡ walk_on left found }
{
    let (what, r) = found.ok()?;
    match what {
        Parted::Took(p, place) => Some((p, place, Walk::Within(r, left - 1))),
        Parted::Other(_) => None,
    }
}

// The next part of the walk.
#[tactic(auto, unfolding(brackets::specs::Walks::walk_step))]
pub fn walk_next(text: &[u8], walk: Walk) -> Option<(Part, Place, Walk)>
    ensures { result ≡ walk_step text.now walk }
{
    match walk {
        Walk::Past => None,
        Walk::Alone(p, place) => Some((p, place, Walk::Past)),
        Walk::Within(r, left) => {
            if left == 0 {
                return None;
            }
            walk_on(left, next_part(text, r))
        }
    }
}
