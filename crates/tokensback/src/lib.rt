// Tokens back: each token of the canonical text, read again where it stands, is the token that was printed. Nothing runs here.
#![tactic(auto)]
