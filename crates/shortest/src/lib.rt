// No code: chains of fewest residual arcs, as definitions, and what going on along them comes to.
#![tactic(auto)]
