// The innermost steps of packed ciphertexts: bodies under one rotated mask, and their phases. Not for users: the steps have a
// `requires`, which the calls above meet after they have judged.
#![tactic(auto)]

mod packed;

pub use packed::{phases, write_packed, write_plaintexts};
