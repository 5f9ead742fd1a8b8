// The reading of a word: the multiple of 2^d that its digits make.
ghost use Rattle.std.specs.Prelude.{◌≡◌};
ghost use Rattle.primus_decompose.specs.Answers.{reading_answer, signed_digit};

use crate::primitive::basis::ApproxSignedBasis;
use check_order::Refusal;
use gadget_constants::Reading;

impl ApproxSignedBasis {
    // The number that a stored digit stands for: itself below B/2, else q less.
    pub fn signed_digit(self, digit: u32) -> i64
        ensures { result ≡ signed_digit self digit }
    {
        gadget_constants::signed_digit(digit, self.basis_value(), self.modulus())
    }

    // The reading and ε. Refuses by 1 to 3, 5, 14.
    pub fn reading(self, value: u32) -> Result<Reading, Refusal>
        ensures { result ≡ reading_answer self value }
    {
        self.word_refusal(value)?;
        Ok(gadget_constants::read(self.prepared(), value))
    }
}
