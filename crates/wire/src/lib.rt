// The byte rows of the booking server: definitions and lemmas only, no code.
#![tactic(auto)]
