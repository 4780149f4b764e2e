// Solution texts (document 02, CR 1): their wording, and what some bytes say of a table. Definitions and lemmas only, no code.
#![tactic(auto)]
