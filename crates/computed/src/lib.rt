// Worked cases over whole tables and long lists, computed: tables that hold a netlist, lent slices one word short, bad lists, runs. They
// take long, so they stand where no must-fail edit waits for them. Nothing runs here.
// The definitions of tables and of load lists stand below it; nothing stands above it.
#![tactic(auto)]
