// Telling: what the programs say to clerks and bench staff. The ground of each refusal in plain words, bits as letters, and names. It
// promises which bits letters say, that every call ends, and that nothing is written past a room; what stands in a line is held by the
// programs' expected output. The ground stands below it, the programs above.
#![tactic(auto)]

pub mod bits;
pub mod grounds;
pub mod names;
