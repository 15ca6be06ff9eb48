// No code: the laws that more than one crate cites, in specs/ and proofs/.
#![tactic(auto)]
