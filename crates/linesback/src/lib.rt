// Lines back: each printed line of metadata or I/O, read again where it stands, says what was printed. Nothing runs here.
#![tactic(auto)]
