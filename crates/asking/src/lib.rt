// Asking: what reading asks of a declaration, over the rows noted so far: what a metadata reference names (rule 10); and the definitions
// of when a name is taken (rule 9). It promises that each answer is the one that the rules of the netlist give of what the notes say. The
// notes stand below it; names and reading above.
#![tactic(auto)]

pub mod refs;

use ground::Place;

// What a reference may name: metadata of any kind, of any but a set, a scope, or a source.
#[derive(Clone, Copy)]
pub enum Asks {
    Any,
    Member,
    Scope,
    Source,
}
