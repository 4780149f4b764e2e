// What raising one arc does to the largest value: definitions and lemmas only, no code.
#![tactic(auto)]
