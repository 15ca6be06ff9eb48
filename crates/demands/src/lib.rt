// No code: demands 2 and 3 over the public calls of the sample encoder, in specs/.
#![tactic(auto)]
