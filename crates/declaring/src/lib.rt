// The declarations of a text, one after the other: each refused by rules 9 to 13, or noted in the tables. It promises that it stops where
// the definitions stop, or that the tables note all that was said. Noting, ionotes, metas and wiring stand below it, reading above.
#![tactic(auto)]

pub mod declarations;
mod fresh;
mod notes;
