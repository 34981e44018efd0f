// The last step of a reading whose pieces all resolve. It promises that the slices then hold what is to stand there. Settling and
// resolving stand below it, reading above.
#![tactic(auto)]

pub mod finish;
