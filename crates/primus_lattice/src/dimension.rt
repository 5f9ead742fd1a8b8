// The dimension of a ciphertext: a kind of its own, as in the Rust.
ghost use Rattle.std.specs.Prelude.{◌≡◌, ◌+◌, ◌||◌};
ghost use Rattle.scheme.specs.Checks.{dimension_fails, length_fails};
ghost use Rattle.primus_lattice.specs.Answers.{dimension_answer, given};

use check_order::Refusal;

// n, the number of mask words. Stays beside DecompositionBaseLog: two numbers with limits of their own; a trait over both is no plainer.
#[derive(Clone, Copy, Debug, PartialEq, Eq)]
pub struct LweDimension(usize);

// 6: outside the limits of the kind.
fn dimension_refused(dimension: usize) -> bool
    ensures { result ≡ dimension_fails dimension }
{
    dimension < LweDimension::MIN || LweDimension::MAX < dimension
}

impl LweDimension {
    pub const MIN: usize = 1;

    pub const MAX: usize = 2048;

    // The dimension n. Refuses by 6.
    // Stays: try_new: the Rust's TryFrom beside it would be a second way to the same.
    #[tactic(auto, unfolding(scheme::specs::Checks::refusal, scheme::specs::Checks::first_in, check_order::specs::Answer::answer, check_order::specs::Answer::refusal_for))]
    pub fn try_new(dimension: usize) -> Result<LweDimension, Refusal>
        ensures { result ≡ dimension_answer dimension }
    {
        if dimension_refused(dimension) {
            return Err(Refusal::Dimension);
        }
        Ok(LweDimension(dimension))
    }

    // Any number, as a caller gives it: the calls judge it by 6, in its place in the order.
    // Stays: a name of its own, no From: beside `try_new` that would be read as the judged way.
    pub fn given(dimension: usize) -> LweDimension
        ensures { result ≡ given dimension }
    {
        LweDimension(dimension)
    }

    pub fn get(self) -> usize
        ensures { result ≡ self.0 }
    {
        self.0
    }

    // 6.
    pub fn refused(self) -> bool
        ensures { result ≡ dimension_fails self.0 }
    {
        dimension_refused(self.0)
    }

    // 9, 12: `len` is not n.
    pub fn differs(self, len: usize) -> bool
        ensures { result ≡ length_fails len self.0 }
    {
        len != self.0
    }

    // 10, 11: `len` is not n + 1.
    // Stays: a method that only calls on: it passes its own number.
    pub fn ciphertext_differs(self, len: usize) -> bool
        ensures { result ≡ length_fails len (self.0 + 1) }
    {
        checks::ciphertext_differs(len, self.0)
    }

    // 10: one of two is not n + 1.
    pub fn ciphertexts_differ(self, len: usize, second: usize) -> bool
        ensures { result ≡ (length_fails second (self.0 + 1) || length_fails len (self.0 + 1)) }
    {
        self.ciphertext_differs(second) | self.ciphertext_differs(len)
    }
}
