// The chain in rows of a rate function: definitions and theorems, no code.
#![tactic(auto)]
