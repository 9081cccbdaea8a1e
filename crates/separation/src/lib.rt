// Laws only: the promise of the Sun list for one minute, apart from series, time and program.
#![tactic(auto)]
