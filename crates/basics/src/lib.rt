// Finite sums and products, "within c factors", tests of all numbers below n, the first number at which a test holds, and the list of a
// function's first values, with general laws of tests, lists and whole numbers: definitions and laws, no code.
#![tactic(auto)]
