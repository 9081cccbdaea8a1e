// The promises of the reader of published files: no code, only theorems (specs/, proofs/).
#![tactic(auto)]
