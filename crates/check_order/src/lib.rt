// Which numbers apply to a call, and the first of them. A call sets the fields that it judges: first the sizes, and only where none of
// them applies the values, so that no word of a lent buffer is read before every length is known to fit.
#![tactic(auto)]

ghost use Rattle.std.specs.Prelude.{◌≡◌, true, false, MatchResult};
ghost use Rattle.check_order.specs.Answer.{code_of};
ghost use Rattle.check_order.specs.Judged.{FirstSize, FirstValue};

mod refusal;

pub use refusal::Refusal;

// Stays: flags, no Results: a call sets them as it goes, 13 of its parameters before 9 of its key, and the order says which counts.

// Numbers and lengths.
#[derive(Clone, Copy, Default)]
pub struct Sizes {
    pub base_log: bool,
    pub modulus: bool,
    pub base: bool,
    pub levels: bool,
    pub large: bool,
    pub dimension: bool,
    pub plaintext: bool,
    pub small: bool,
    pub key: bool,
    pub input: bool,
    pub output: bool,
    pub lent: bool,
    pub error_limit: bool,
}

// What is read of the lent buffers.
#[derive(Clone, Copy, Default)]
pub struct Values {
    pub word: bool,
    pub error: bool,
    pub message: bool,
    pub tally: bool,
}

// Refuses by this reason where its condition holds.
fn refuse(fails: bool, by: Refusal) -> Result<(), Refusal>
    ensures { MatchResult result (λ _. fails ≡ false) (λ reason. (reason ≡ by) × (fails ≡ true)) }
{
    if fails {
        return Err(by);
    }
    Ok(())
}

impl Sizes {
    // Refuses by the first reason that applies.
    #[tactic(auto, unfolding(scheme::specs::Checks::first_in, crate::specs::Answer::number_of))]
    pub fn judge(self) -> Result<(), Refusal>
        ensures { FirstSize self (code_of result) }
    {
        refuse(self.base_log, Refusal::BaseLog)?;
        refuse(self.modulus, Refusal::Modulus)?;
        refuse(self.base, Refusal::Base)?;
        refuse(self.levels, Refusal::Levels)?;
        refuse(self.large, Refusal::LargeModulus)?;
        refuse(self.dimension, Refusal::Dimension)?;
        refuse(self.plaintext, Refusal::PlaintextModulus)?;
        refuse(self.small, Refusal::SmallModulus)?;
        refuse(self.key, Refusal::KeyLength)?;
        refuse(self.input, Refusal::InputLength)?;
        refuse(self.output, Refusal::OutputLength)?;
        refuse(self.lent, Refusal::LentLength)?;
        refuse(self.error_limit, Refusal::ErrorLimit)
    }
}

impl Values {
    // Refuses by the first reason that applies.
    #[tactic(auto, unfolding(scheme::specs::Checks::first_in, crate::specs::Answer::number_of))]
    pub fn judge(self) -> Result<(), Refusal>
        ensures { FirstValue self (code_of result) }
    {
        refuse(self.word, Refusal::Word)?;
        refuse(self.error, Refusal::Error)?;
        refuse(self.message, Refusal::Message)?;
        refuse(self.tally, Refusal::Tally)
    }
}
