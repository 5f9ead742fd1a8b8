// Encryption and phases under a secret key: words below q, or signed numbers c that stand for c modulo q.
mod borrowed;
mod message;

pub use borrowed::{decrypt_phase, encrypt_encoded_to};
pub use message::{decrypt_message, encrypt_message_to};
