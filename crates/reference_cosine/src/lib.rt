// Laws only: the reference cosine, how near it the working one is, and how great both are.
#![tactic(auto)]
