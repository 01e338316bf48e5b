// Laws on finite sums and on sets of numbers, for the proofs of the other crates. There is no code here.
#![tactic(auto)]
