// The rows of a public key: written, and added to a ciphertext or taken away from it. Not for users: the steps have a `requires`,
// which the calls of primus_lwe_public_key meet after they have judged.
// Stays: each lent buffer is a parameter of its own, as the call is lent it: a struct would be made in one line and taken apart in the next.
#![tactic(auto)]

mod rows;

pub use rows::{write_public, write_zeros};
