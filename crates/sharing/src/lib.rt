// A full plan (document 02, CR 8), and when sums by pair can be shared among arcs as a flow. Definitions and lemmas only, no code.
#![tactic(auto)]
