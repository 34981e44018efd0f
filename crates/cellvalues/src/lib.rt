// The value of a cell of any kind over 0, 1, X, from the bits of its operands. It promises the value that cells defines, for whatever is
// lent, every lent byte included. Cells stands below it; the evaluator above.
#![tactic(auto)]

pub mod adc;
pub mod compare;
pub mod gates;
mod lent;
pub mod mux;
pub mod value;
