// LWE encryption over words of 32 bits. Random masks and errors are lent.
// Stays: each lent buffer is a parameter of its own, as in the Rust and in C; what refuses a call takes them as they come.
#![tactic(auto)]

mod secret_key;

pub use lwe_errors::LweErrorsRef;
pub use lwe_parameters::{
    LweDecryptionParameters, LweEncryptionParameters, LweParameters, LwePhaseParameters,
};
pub use lwe_secret_key::LweSecretKeyRef;
pub use secret_key::{decrypt_message, decrypt_phase, encrypt_encoded_to, encrypt_message_to};
