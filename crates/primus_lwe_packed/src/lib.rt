// Packed ciphertexts: n shared mask words, then a body for each of at most n messages. Masks and errors are lent.
// Stays: each lent buffer is a parameter of its own, as in the Rust and in C; what refuses a call takes them as they come.
#![tactic(auto)]

mod message_packed;
mod packed;

pub use message_packed::{decrypt_message_packed, encrypt_message_packed};
pub use packed::{decrypt_phase_packed, encrypt_encoded_packed};
