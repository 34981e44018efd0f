// Enclosed: operands between their brackets, read part by part, and measured. It promises that each part, each width and each refusal 5 to 8
// is the one that the definitions of brackets give. The form of declarations stands above it, sets beside it, tokens, parts and words below.
#![tactic(auto)]

pub mod measures;
