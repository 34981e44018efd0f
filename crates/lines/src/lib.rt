// Lines: what the canonical text is, as definitions, laws and worked cases. The code of its lines stands in metalines, iolines and celllines,
// the printer above, the tokens of the text below.
#![tactic(auto)]
