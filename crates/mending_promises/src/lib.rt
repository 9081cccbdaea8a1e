// Laws only: what mending does to each byte, that the list says all of it, and that a mended text needs no mending; the promises of `mending`.
#![tactic(auto)]
