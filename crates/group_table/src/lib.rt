// What a group table means (document 02, R-1): definitions, laws and evaluated tables, no code.
#![tactic(auto)]
