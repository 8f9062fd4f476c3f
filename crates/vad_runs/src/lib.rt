// No code: small runs of the original, computed from the definitions of the crates below.

#![tactic(auto)]
