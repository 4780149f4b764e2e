// No code: what a call refuses that solves and takes no minimum above 0, and what it leaves, for the requests that say "as for solving, then BOUNDED".
#![tactic(auto)]
