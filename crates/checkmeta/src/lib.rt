// The check of metadata rows: that they and their pools lie as document 01's Room says, and that each row keeps the rules. It
// promises that a walk over the rows that comes to its end is one over metadata that is laid out and sound, and tells where the
// pools end. The netlist stands below it, the check of whole tables above.
#![tactic(auto)]

pub mod fields;
pub mod refs;
pub mod rows;
