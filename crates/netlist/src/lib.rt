// The netlist: what it is as a value, when it is valid, how tables hold it, and which tables are good. Nothing runs here:
// the check of tables and the lookup of I/O stand in checking. Reading, printing and logic stand above it; it knows no text.
#![tactic(auto)]

use ground::Refusal;
