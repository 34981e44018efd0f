// The words and laws that every crate above shares: places and refusals, choices by a test, lists at a place, regions of tables,
// writes. It promises laws only; nothing runs here. It stands on nothing.
#![tactic(auto)]

// A place in a text or a list: the number of bytes before it.
#[derive(Clone, Copy, PartialEq, Eq)]
pub struct Place {
    pub at: usize,
}

// A refusal: document 01's number, and the place.
#[derive(Clone, Copy, PartialEq, Eq)]
pub struct Refusal {
    pub number: u8,
    pub place: Place,
}
