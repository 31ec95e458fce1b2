// Two chains side by side: the joint chain and the verdict of a joining. Definitions and theorems, no code.
#![tactic(auto)]
