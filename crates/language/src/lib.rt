// Language: which texts say a netlist, stated apart from the order in which reading asks, and that reading accepts exactly these.
// Nothing runs here. Reading stands below it, the promises above.
#![tactic(auto)]
