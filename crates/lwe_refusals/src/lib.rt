// What refuses a call on one ciphertext: the first reason of the table of checks that applies. For the calls of primus_lwe,
// which act after it.
// Stays: each lent buffer is a parameter of its own, as the call is lent it: a struct would be made in one line and taken apart in the next.
#![tactic(auto)]

mod borrowed;
mod message;

pub use borrowed::{decrypt_refusal, encrypt_refusal};
pub use message::message_refusal;
