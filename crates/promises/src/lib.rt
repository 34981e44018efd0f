// The promises: the lines between yes and no, proved of the definitions, and every top theorem on one page. Nothing runs here.
// It stands on the definitions and laws of all layers; nothing stands above it.
#![tactic(auto)]
