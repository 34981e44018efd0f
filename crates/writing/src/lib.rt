// Writing: what the tokens of the canonical text are, as definitions, and bytes put into lent room one after the other. Each writer takes
// the count of bytes so far and gives the count after its own; a byte past the room's end is dropped and counted. It promises the text
// that specs/ gives. Decimals, references and quotes stand above it.
#![tactic(auto)]

pub mod room;
