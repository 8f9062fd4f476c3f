// No code: demand 3 and document 01's small table, as theorems over the definitions that the contracts of the crates below cite.

#![tactic(auto)]
