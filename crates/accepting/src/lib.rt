// Accepting: every netlist that reading accepts is valid, so the tables that it lays are good, and printing refuses none of them but
// for room. Nothing runs here. Reading and printing stand below it; the way back from the
// canonical text, the language and the promises above.
#![tactic(auto)]
