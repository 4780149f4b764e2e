// Our own answer, written out and checked as a plan: definitions and lemmas only, no code.
#![tactic(auto)]
