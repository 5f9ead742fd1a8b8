// What refuses a call on a batch: the first reason of the table of checks that applies. For the calls of primus_lwe_batch,
// which act after it.
// Stays: each lent buffer is a parameter of its own, as the call is lent it: a struct would be made in one line and taken apart in the next.
#![tactic(auto)]

mod message_batch;

pub use message_batch::{decrypt_refusal, encrypt_refusal};
