// Batches of LWE ciphertexts under a secret key, one after the other. Random masks and errors are lent.
// Stays: each lent buffer is a parameter of its own, as in the Rust and in C; what refuses a call takes them as they come.
#![tactic(auto)]

mod message_batch;

pub use message_batch::{
    decrypt_message_batch_to, decrypt_phase_batch_to, encrypt_message_batch_to,
};
