// Laws only: series stored end to end, told apart and found again.
#![tactic(auto)]
