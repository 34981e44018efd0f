// Returning: the canonical text of a valid netlist, read, says that netlist again; so printing and reading undo each other, tables and
// all, and no two netlists have one text. Nothing runs here.
#![tactic(auto)]
