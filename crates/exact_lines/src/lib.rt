// Lines of the vectors of the exact test, proved; it has no functions.
#![tactic(auto)]
