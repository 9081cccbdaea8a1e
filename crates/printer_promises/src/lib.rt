// Laws only: printed texts read again, plain texts printed again, and how long a printed text is.
#![tactic(auto)]
