// A decomposition before it is bound to a modulus.
ghost use Rattle.std.specs.Prelude.{◌≡◌};
ghost use Rattle.primus_decompose.specs.Answers.{basis_answer};

use crate::primitive::ApproxSignedBasis;
use check_order::Refusal;
use gadget_parameters::{DecompositionBaseLog, DecompositionLevelCount};
use primus_reduce::Modulus;

#[derive(Clone, Copy)]
pub struct DecompositionConfig {
    pub log_basis: DecompositionBaseLog,
    // None: all whole levels are retained.
    pub level_count: Option<DecompositionLevelCount>,
}

impl DecompositionConfig {
    // The basis of this configuration and q. Refuses by 1 to 3, 5.
    // Stays: a method, where the Rust has TryFrom of a pair: its name says more than a pair that is made for it.
    pub fn try_into_basis(self, modulus: Modulus) -> Result<ApproxSignedBasis, Refusal>
        ensures { result ≡ basis_answer modulus self.log_basis self.level_count }
    {
        let log_basis = self.log_basis;
        let level_count = self.level_count;
        ApproxSignedBasis::try_new(modulus, log_basis, level_count)
    }
}
