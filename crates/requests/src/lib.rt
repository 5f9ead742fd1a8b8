#![tactic(auto)]

// Theorems that a request changed no answer but those that it names (proofs/, a file a request). No code.
