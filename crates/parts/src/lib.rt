// A row with a new part: definitions and lemmas only, no code.
#![tactic(auto)]
