// No code: that the table is the listing, sorted, split and cut, in specs/. It stands alone because sorting takes the check a while.
#![tactic(auto)]
