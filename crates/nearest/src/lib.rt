// No code: that the search at one scale returns the point that is nearest by more than 2^-20, where it has a word, in proofs/.
#![tactic(auto)]
