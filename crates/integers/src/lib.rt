// A library of laws about whole numbers; it has no functions.
#![tactic(auto)]
