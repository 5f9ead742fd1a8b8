// The static library of the C service: the calls of include/saigagalena.h, by subject. Each promises what the call promises that it wraps.
// Stays: refusals as numbers, numbers for parameters, each buffer by itself, and a `_signed` call beside six and
// an `_error_words` call beside thirteen: C's interface, whose names stay. Where such calls stand together, one function has their body and proof.
#![tactic(auto)]

mod basis;
mod codec;
mod decrypt;
mod encrypt;
mod encrypt_batch;
mod encrypt_message;
mod encrypt_packed;
mod lattice;
mod lengths;
mod public_key;
mod public_key_encrypt;
mod switch;
mod switching_key;
