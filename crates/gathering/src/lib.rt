// Gathering: the bits of an operand from its runs, with bit 0 first. It promises them for whatever is lent, every lent byte included. One
// code gathers whatever holds a bit: its value, or the slot that holds it. Cells stand below it, valuing and slotgathering above.
#![tactic(auto)]

pub mod bits;
pub mod held;
