// Cells back: each printed line of a cell, read again where it stands, says the cell that was printed. Nothing runs here.
#![tactic(auto)]
