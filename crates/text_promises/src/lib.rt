// Laws only: what the reader of texts answers, over the grammar and the limits; the promises of `text`.
#![tactic(auto)]
