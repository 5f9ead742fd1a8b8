// The key of a key switch: from one secret to another, an entry for each mask place and level.
// Stays: each lent buffer is a parameter of its own, as in the Rust and in C; what refuses a call takes them as they come.
#![tactic(auto)]

mod key;

pub use key::LweKeySwitchingKey;
pub use key_switch_parameters::LweKeySwitchingParameters;
