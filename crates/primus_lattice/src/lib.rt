// LWE ciphertexts over words of 32 bits: the dimension, sums, and the tag beside the words.
// Stays: each lent buffer is a parameter of its own, as in the Rust and in C; what refuses a call takes them as they come. So are q and n:
// the struct of them, LwePhaseParameters, is made above this crate.
#![tactic(auto)]

mod dimension;
mod single_message;

pub use dimension::LweDimension;
pub use lwe_tag::LweTag;
pub use single_message::add_assign;
