// Saved runs of ciphertexts, added to a total place by place, or refused whole. The first of them is the total.
// Stays: each lent buffer is a parameter of its own, as in the Rust and in C; what refuses a call takes them as they come.
#![tactic(auto)]

mod rows;
mod total;

pub use lwe_parameters::LweDecryptionParameters;
pub use lwe_tag::LweTag;
pub use total::{add_saved, begin_saved};
