// Saying: what a declaration says, as values: strings decoded, references as rows, operands as longest runs; and the notes
// that reading takes of a row before the netlist is laid. Form and netlist stand below it, reading above.
#![tactic(auto)]
