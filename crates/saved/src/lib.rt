// The words and tags of saved keys and ciphertexts, read from lent bytes: docs/FILES.md. Past the end every byte is 0.
// Stays: bytes and a place, as in little_endian.
#![tactic(auto)]

mod words;

pub use words::{SavedWord, signed_at, tag_at, word_at, words_to};
