// A lent secret key of either form, and the innermost steps of encryption and phases under it. Not for users: some steps have a
// `requires`, which the calls above meet after they have judged.
#![tactic(auto)]

mod key;
mod steps;

pub use key::LweSecretKeyRef;
pub use steps::{body, encrypt_row, encrypt_to};
