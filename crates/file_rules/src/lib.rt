// What is asked of a stored file: its refusals as a computation and as facts, their laws, and evaluated files. Definitions, no code.
#![tactic(auto)]
