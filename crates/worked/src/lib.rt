// The chains that document 01 works on paper, as one proved table, with cases of requests, and joint chains solved: no code.
#![tactic(auto)]
