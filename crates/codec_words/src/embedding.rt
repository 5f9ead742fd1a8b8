// How a message of 0 … t − 1 is lifted into the ciphertext modulus.
#[derive(Clone, Copy, Debug, PartialEq, Eq)]
pub enum PlaintextEmbedding {
    // As m.
    Unsigned,
    // As m below ⌈t/2⌉, and as m − t from there on.
    Centered,
}
