// A refusal as the programs of worked cases say it: its number and its place. What is written is held by their expected output.
#![tactic(auto)]

use ground::Refusal;
use std::io;
use std::io::Write;

pub fn tell_refused<W: Write>(to: &mut W, r: Refusal) -> io::Result<()> {
    write!(to, "refused {} at {}", r.number, r.place.at)
}
