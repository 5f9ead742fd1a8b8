// What refuses a call on a packed ciphertext: the first reason of the table of checks that applies. For the calls of
// primus_lwe_packed, which act after it.
// Stays: each lent buffer is a parameter of its own, as the call is lent it: a struct would be made in one line and taken apart in the next.
#![tactic(auto)]

mod message_packed;
mod opening;
mod packed;

pub use message_packed::packed_message_refusal;
pub use opening::{packed_decrypt_refusal, packed_phase_refusal};
pub use packed::packed_refusal;
