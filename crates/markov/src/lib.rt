// The exact theory of chains and of their elimination: definitions and theorems, no code.
#![tactic(auto)]
