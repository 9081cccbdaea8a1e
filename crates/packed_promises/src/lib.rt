// Laws only: packed series and their blocks, each found from the other; how long a series is, and where it is refused.
#![tactic(auto)]
