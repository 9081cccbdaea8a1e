// A library of laws about lists and lent buffers; it has no functions.
#![tactic(auto)]
