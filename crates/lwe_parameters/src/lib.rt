// What LWE encryption and openings are set up with.
#![tactic(auto)]

mod parameter;

pub use parameter::{
    LweDecryptionParameters, LweEncryptionParameters, LweParameters, LwePhaseParameters,
};
