// No code: the laws in specs/ and proofs/ say that the search at one scale always finds a path, and that its point has a word.
#![tactic(auto)]
