// Approximate signed decomposition: the gadget basis, readings and digits, for words of 32 bits.
#![tactic(auto)]

mod parameters;
mod primitive;

pub use check_order::Refusal;
pub use gadget_constants::{PreparedBasis, Reading, ValueCarry};
pub use gadget_digits::{SignedDecomposer, Step};
pub use gadget_parameters::{DecompositionBaseLog, DecompositionLevelCount};
pub use parameters::DecompositionConfig;
pub use primitive::ApproxSignedBasis;
