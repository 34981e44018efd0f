// Fronts: whatever front of a valid netlist a text has declared so far, its next declaration passes rules 9 to 13; and cells told by
// their numbers are told by rows again. Nothing runs here.
#![tactic(auto)]
