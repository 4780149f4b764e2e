// A table without what can't matter, and what its largest flow is in the old one: definitions and lemmas only, no code.
#![tactic(auto)]
