// Signs: what tokens are made of, as definitions, and the classes of bytes as code: the table of 256 classes and a byte's class by it. It
// promises that each byte has the class that the definitions of specs/ give. Spans, numerals and strings stand above it, the ground below.
#![tactic(auto)]

pub mod classes;
pub mod pieces;
