// Little-endian numbers: definitions and lemmas only, no code.
#![tactic(auto)]
