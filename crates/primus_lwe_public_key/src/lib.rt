// LWE public keys over words of 32 bits. Random masks, errors and coefficients are lent.
// Stays: each lent buffer is a parameter of its own, as in the Rust and in C; what refuses a call takes them as they come.
#![tactic(auto)]

mod public_key;

pub use public_key::LwePublicKey;
