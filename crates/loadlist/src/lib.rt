// The load list: its records read and written, and, in specs/, what a good list and a run of it are. It promises that any record of any list
// is read, and that a record is read back as it was written. Trits stand below it; the check of lists, the run, cells and translation above.
#![tactic(auto)]

pub mod records;

use ground::Refusal;

// A record: an operation and its two fields. Record k makes slot k.
#[derive(Clone, Copy)]
pub struct Record {
    pub op: u8,
    pub first: u16,
    pub second: u16,
}
