// The check of cell rows and their runs: that they and their pools lie as document 01's Room says, and that each cell keeps the rules.
// It promises that a walk over the rows that comes to its end is one over cells that are laid out and sound, and tells where the
// pools end. The check of metadata stands below it, the check of whole tables above.
#![tactic(auto)]

pub mod cells;
pub mod runs;
