// No code: that the table of fallbacks holds the point of least norm of each end region, ties to the smaller point, in specs/.
#![tactic(auto)]
