// No code: what document 02, T-01 asks of the reading in blocks, as theorems on the definitions that the calls of crate feeding meet.
#![tactic(auto)]
