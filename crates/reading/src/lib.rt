// Reading: any bytes in; a netlist in lent tables, or a numbered refusal with its place. The outcome of it as definitions, every lent byte
// included, with the laws of the steps that come to it. The notes and rules that it speaks of stand below it; the reader, the canonical
// text read back and the promises above.
#![tactic(auto)]

use ground::Refusal;
