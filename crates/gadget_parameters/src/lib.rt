// The kinds of a gadget basis, as in the Rust, and what judges them: 1 to 3, 5.
#![tactic(auto)]

ghost use Rattle.std.specs.Prelude.{◌≡◌, ◌*◌, ◌^◌, ltb};
ghost use Rattle.scheme.specs.Modulus.{bits};
ghost use Rattle.scheme.specs.Basis.{full_count};
ghost use Rattle.scheme.specs.Checks.{base_log_fails, base_fails, levels_fail, basis_rows, length_fails, refusal};
ghost use Rattle.primus_reduce.specs.Ring.{meant};
ghost use Rattle.check_order.specs.Answer.{code_of};
ghost use Rattle.check_order.specs.Judged.{JudgesSizes};
ghost use Rattle.gadget_parameters.specs.Kinds.{base_log_rows, base_log_answer, levels_for, level_count_of};

use check_order::{Refusal, Sizes};
use primus_reduce::Modulus;

// Base-2 logarithm of the gadget radix B.
#[derive(Clone, Copy)]
pub struct DecompositionBaseLog(u32);

// Number of retained levels L. Any number is one: the basis judges it, after the modulus.
#[derive(Clone, Copy)]
pub struct DecompositionLevelCount(usize);

#[tactic(auto, using(crate::proofs::Laws::below_test))]
fn below_basis(q: u32, log: u32) -> bool
    ensures { result ≡ ltb q (2 ^ log) }
{
    u64::from(q) < 1 << log.min(32)
}

impl DecompositionBaseLog {
    pub const MIN: u32 = 2;

    pub const MAX: u32 = 31;

    // Refuses by 1.
    // Stays: try_new: the Rust's TryFrom beside it would be a second way to the same.
    #[tactic(auto, using(check_order::proofs::Answers::served))]
    pub fn try_new(log_basis: u32) -> Result<DecompositionBaseLog, Refusal>
        ensures { result ≡ base_log_answer log_basis }
    {
        let b = DecompositionBaseLog(log_basis);
        b.refusal()?;
        Ok(b)
    }

    fn refusal(self) -> Result<(), Refusal>
        ensures { code_of result ≡ refusal (base_log_rows self.0) }
    {
        let mut s = Sizes::default();
        s.base_log = self.refused();
        s.judge()
    }

    // Any number, as a caller gives it: the calls judge it by 1, in its place in the order.
    // Stays: a name of its own, no From: beside `try_new` that would be read as the judged way.
    pub fn given(log_basis: u32) -> DecompositionBaseLog
        ensures { result.0 ≡ log_basis }
    {
        DecompositionBaseLog(log_basis)
    }

    pub fn get(self) -> u32
        ensures { result ≡ self.0 }
    {
        self.0
    }

    // ⌊k / base log⌋
    pub fn full_count(self, modulus: Modulus) -> usize
        ensures { result ≡ full_count (bits 32 (meant modulus)) self.0 }
    {
        modulus.value_bits().checked_div(self.0).unwrap_or(0) as usize
    }

    // 1: outside the limits of the kind.
    fn refused(self) -> bool
        ensures { result ≡ base_log_fails 32 self.0 }
    {
        !(DecompositionBaseLog::MIN..=DecompositionBaseLog::MAX).contains(&self.0)
    }

    // 3: an explicit modulus is below B.
    fn base_refused(self, modulus: Modulus) -> bool
        ensures { result ≡ base_fails self.0 (meant modulus) }
    {
        match modulus {
            Modulus::Native => false,
            Modulus::Explicit(q) => below_basis(q, self.0),
        }
    }
}

impl DecompositionLevelCount {
    // Stays: `new` and `get`: the Rust's From beside them would be a second way to the same.
    pub fn new(level_count: usize) -> DecompositionLevelCount
        ensures { result.0 ≡ level_count }
    {
        DecompositionLevelCount(level_count)
    }

    // Retained levels as a number: at 0 they are left open.
    pub fn retained(n: u32) -> Option<DecompositionLevelCount>
        ensures { result ≡ levels_for n }
    {
        (n != 0).then_some(DecompositionLevelCount(n as usize))
    }

    // L: the count given, or all whole levels where it is left open.
    pub fn or_full(
        levels: Option<DecompositionLevelCount>,
        log_basis: DecompositionBaseLog,
        modulus: Modulus,
    ) -> DecompositionLevelCount
        ensures { result.0 ≡ level_count_of modulus log_basis.0 levels }
    {
        levels.unwrap_or(DecompositionLevelCount(log_basis.full_count(modulus)))
    }

    pub fn get(self) -> usize
        ensures { result ≡ self.0 }
    {
        self.0
    }

    // 5: the level count is 0 or above the full count.
    fn refused(self, log_basis: DecompositionBaseLog, modulus: Modulus) -> bool
        ensures { result ≡ levels_fail (bits 32 (meant modulus)) log_basis.0 self.0 }
    {
        let full = log_basis.full_count(modulus);
        self.0 < 1 || full < self.0
    }

    // 11: `len` is not L runs of `width`.
    // Stays: a method that only calls on: it passes its own number.
    pub fn runs_differ(self, len: usize, width: usize) -> bool
        ensures { result ≡ length_fails len (self.0 * width) }
    {
        checks::runs_differ(len, self.0, width)
    }
}

// 1 to 3 and 5, each in its field. Stays: three numbers: the struct of them, ApproxSignedBasis, is made above this crate.
pub fn basis_sizes(
    modulus: Modulus,
    log_basis: DecompositionBaseLog,
    level_count: DecompositionLevelCount,
) -> Sizes
    ensures { JudgesSizes (basis_rows 32 (meant modulus) log_basis.0 level_count.0) result }
{
    let mut s = Sizes::default();
    s.base_log = log_basis.refused();
    s.modulus = checks::modulus_refused(modulus);
    s.base = log_basis.base_refused(modulus);
    s.levels = level_count.refused(log_basis, modulus);
    s
}
