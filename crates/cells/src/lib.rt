// Cells: what each kind reads, its value over 0, 1, X, and its records in a load list, as definitions and laws. Trits, kinds, the netlist
// and the load list stand below it; the code of values, placing, recording, evaluating and translating above.
#![tactic(auto)]
