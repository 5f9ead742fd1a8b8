// A basis with its constants.
ghost use Rattle.std.specs.Prelude.{◌≡◌};
ghost use Rattle.primus_decompose.specs.Answers.{prepared_answer, WhereReady};

use crate::primitive::basis::ApproxSignedBasis;
use check_order::Refusal;
use gadget_constants::PreparedBasis;

impl ApproxSignedBasis {
    // The basis with its constants, for many words. Refuses by 1 to 3, 5.
    #[tactic(auto, using(check_order::proofs::Answers::served))]
    pub fn prepare(self) -> Result<PreparedBasis, Refusal>
        ensures answered { result ≡ prepared_answer self }
        ensures ready { WhereReady result }
    {
        self.refusal()?;
        Ok(self.prepared())
    }
}
