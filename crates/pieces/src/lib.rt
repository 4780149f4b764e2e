// Document 02, CR 3: the chains and rings of a flow, and that they are the whole of it: definitions and lemmas only, no code.
#![tactic(auto)]
