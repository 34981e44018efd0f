// Tours: the members of a set again, one a step, for whoever builds their rows, in a text of any length. It promises that step by step
// they are the members that the definitions of brackets give. Reading stands above it.
#![tactic(auto)]

ghost use Rattle.std.specs.Prelude.{◌≡◌, ◌<◌};
ghost use Rattle.brackets.specs.Walks.{tour_at, tour_on, tour_step};

use brackets::{Membered, Members, Ref, Tour};
use ground::Place;
use lexis::{Reader, Took};
use sets::next_member;
use signs::classes::Classes;

// The walk over the members of a set.
pub fn tour_of(text: &[u8], members: Members) -> Tour
    ensures { result ≡ tour_at text.now members.at }
{
    let at = members.at;
    Tour {
        next: Reader { next: Place { at } },
        left: text.len() + 1,
    }
}

fn tour_on(left: usize, found: Took<Membered>) -> Option<(Ref, Tour)>
    requires { 0 < left }
    ensures { result ≡ tour_on left found }
{
    let (what, next) = found.ok()?;
    match what {
        Membered::Took(m) => {
            let left = left - 1;
            Some((m, Tour { next, left }))
        }
        Membered::Other(_) => None,
    }
}

// The next member of the walk, with a lent table.
#[tactic(auto, unfolding(brackets::specs::Walks::tour_step))]
pub fn tour_step(t: &Classes, text: &[u8], tour: Tour) -> Option<(Ref, Tour)>
    ensures { result ≡ tour_step text.now tour }
{
    let left = tour.left;
    let next = tour.next;
    if left == 0 {
        return None;
    }
    tour_on(left, next_member(t, text, next))
}

// The next member of the walk, for callers who have no table.
pub fn tour_next(text: &[u8], tour: Tour) -> Option<(Ref, Tour)>
    ensures { result ≡ tour_step text.now tour }
{
    let t = Classes::new();
    tour_step(&t, text, tour)
}
