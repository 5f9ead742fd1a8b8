#![tactic(auto)]

// Theorems about what calls answered (proofs/), and the definitions that they need besides the calls' own (specs/). No code.
