// The digits of a word, and of a slice of words: L runs, lowest level first.
ghost use Rattle.check_order.specs.Answer.{code_of};
ghost use Rattle.primus_decompose.specs.Answers.{Decomposes, DecomposesSlice};

use crate::primitive::basis::ApproxSignedBasis;
use check_order::Refusal;

impl ApproxSignedBasis {
    // The L digits of a word, lowest first, a negative one as q + digit. Refuses by 1 to 3, 5, 11, 14.
    pub fn decompose(self, value: u32, digits: &mut [u32]) -> Result<(), Refusal>
        ensures { Decomposes self value digits.old (code_of result) digits.new }
    {
        let values = [value];
        self.decompose_slice_to(&values, digits)
    }

    // The digits of each word: L runs, lowest level first. Refuses by 1 to 3, 5, 11, 14.
    pub fn decompose_slice_to(self, values: &[u32], digits: &mut [u32]) -> Result<(), Refusal>
        ensures { DecomposesSlice self values.now digits.old (code_of result) digits.new }
    {
        self.slice_refusal(values, digits.len())?;
        gadget_constants::write_columns(digits, values, self.prepared());
        Ok(())
    }
}
