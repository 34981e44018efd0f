// Scanning: the whole text before any token of it. It promises the refusals 2, 3 and 4 with their places, as the definitions of specs/
// give them. The readers of a text stand above it, the classes of bytes below.
#![tactic(auto)]

pub mod scan;

use ground::Refusal;
