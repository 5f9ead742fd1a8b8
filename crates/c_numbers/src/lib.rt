// What the plain numbers of a C call stand for: for the exports of saigagalena. Stays: numbers, and one parameter for each: C.
#![tactic(auto)]

mod codec;
mod lengths;
mod parameters;

pub use c_answers::{LweOutcome, code, mark_number, refused, word_number};
pub use c_basis::{write_basis, write_reading};
pub use codec::{decode_number, encode_number};
pub use lengths::{ciphertext_words, packed_words, public_key_words, switching_key_words};
pub use parameters::{
    basis_for, codec_for, decryption_for, embedding_for, encryption_for, messages_for, phases_for,
    switching_for,
};
