// How busy a switch will be: how many words have 0, 1, … L digits that are not zero.
ghost use Rattle.std.specs.Prelude.{◌≡◌};
ghost use Rattle.check_order.specs.Answer.{code_of};
ghost use Rattle.scheme.specs.Checks.{refusal};
ghost use Rattle.primus_decompose.specs.Answers.{count_rows, CountsWords};

use crate::primitive::basis::ApproxSignedBasis;
use check_order::Refusal;

impl ApproxSignedBasis {
    // 1 to 3, 5, 26, 11
    fn count_refusal(self, room: usize) -> Result<(), Refusal>
        ensures { code_of result ≡ refusal (count_rows self room) }
    {
        let levels = self.level_count();
        let mut s = self.sizes();
        s.large = checks::large_refused(self.modulus());
        s.output = checks::counts_differ(room, levels.get());
        s.judge()
    }

    // The L + 1 counts: how many words below q have just 0, 1, … L digits that are not zero. L + 1 steps for a power of two, q × L for
    // another modulus. Refuses by 1 to 3, 5, 26, 11.
    pub fn digit_counts(self, counts: &mut [u32]) -> Result<(), Refusal>
        ensures { CountsWords self counts.old (code_of result) counts.new }
    {
        self.count_refusal(counts.len())?;
        gadget_counts::write_counts(counts, self.prepared());
        Ok(())
    }
}
