// The gadget basis modulo q: B = 2^base log, weights 2^d × B^j, digits in −B/2 … B/2 − 1.
ghost use Rattle.std.specs.Prelude.{◌≡◌, ◌≤◌};
ghost use Rattle.scheme.specs.Numbers.{tabulate};
ghost use Rattle.scheme.specs.Modulus.{bits};
ghost use Rattle.scheme.specs.Basis.{bound, dropped};
ghost use Rattle.scheme.specs.Checks.{refusal};
ghost use Rattle.primus_reduce.specs.Ring.{meant, power_of_two};
ghost use Rattle.check_order.specs.Answer.{code_of};
ghost use Rattle.check_order.specs.Judged.{JudgesSizes};
ghost use Rattle.gadget_constants.specs.Prepared.{Ready};
ghost use Rattle.primus_decompose.specs.Answers.{basis_from, basis_with, basis_answer, basis, rows, word_rows};
ghost use Rattle.primus_decompose.specs.Answers.{base_word, weight_word, threshold_answer, prepared_by};
ghost use Rattle.primus_decompose.specs.Answers.{init_answer, decomposer_answer, slice_rows};

use check_order::{Refusal, Sizes, Values};
use gadget_constants::{PreparedBasis, ValueCarry};
use gadget_digits::SignedDecomposer;
use gadget_parameters::{DecompositionBaseLog, DecompositionLevelCount};
use primus_reduce::Modulus;

// Three numbers, judged by 1 to 3 and 5 by every call that takes them.
#[derive(Clone, Copy)]
pub struct ApproxSignedBasis {
    modulus: Modulus,
    log_basis: DecompositionBaseLog,
    level_count: DecompositionLevelCount,
}

impl ApproxSignedBasis {
    // Refuses by 1 to 3, 5.
    // Stays: a try_new for each kind, as in the Rust; TryFrom would take its parameters as a tuple, without their names.
    #[tactic(auto, using(check_order::proofs::Answers::served))]
    pub fn try_new(
        modulus: Modulus,
        log_basis: DecompositionBaseLog,
        level_count: Option<DecompositionLevelCount>,
    ) -> Result<ApproxSignedBasis, Refusal>
        ensures { result ≡ basis_answer modulus log_basis level_count }
    {
        let b = ApproxSignedBasis::of(modulus, log_basis, level_count);
        b.refusal()?;
        Ok(b)
    }

    // Any numbers, as a caller gives them, levels 0 left open: the calls judge them by 1 to 3 and 5.
    // Stays: a name of its own, no From: beside `try_new` that would be read as the judged way.
    pub fn given(modulus: Modulus, base_log: u32, levels: u32) -> ApproxSignedBasis
        ensures { result ≡ basis_with modulus base_log levels }
    {
        let log_basis = DecompositionBaseLog::given(base_log);
        let level_count = DecompositionLevelCount::retained(levels);
        ApproxSignedBasis::of(modulus, log_basis, level_count)
    }

    fn of(
        modulus: Modulus,
        log_basis: DecompositionBaseLog,
        level_count: Option<DecompositionLevelCount>,
    ) -> ApproxSignedBasis
        ensures { result ≡ basis_from modulus log_basis level_count }
    {
        ApproxSignedBasis {
            modulus,
            log_basis,
            level_count: DecompositionLevelCount::or_full(level_count, log_basis, modulus),
        }
    }

    // q
    pub fn modulus(self) -> Modulus
        ensures { result ≡ self.modulus }
    {
        self.modulus
    }

    pub fn modulus_is_power_of_2(self) -> bool
        ensures { result ≡ power_of_two self.modulus }
    {
        let modulus = self.modulus;
        modulus.is_power_of_two()
    }

    // k
    pub fn value_bits(self) -> u32
        ensures { result ≡ bits 32 (meant self.modulus) }
    {
        let modulus = self.modulus;
        modulus.value_bits()
    }

    // L
    pub fn level_count(self) -> DecompositionLevelCount
        ensures { result ≡ self.level_count }
    {
        self.level_count
    }

    pub fn log_basis(self) -> DecompositionBaseLog
        ensures { result ≡ self.log_basis }
    {
        self.log_basis
    }

    // B as a word
    pub fn basis_value(self) -> u32
        ensures { result ≡ base_word self }
    {
        let log = self.log_basis;
        gadget_constants::power_word(log.get() as u64)
    }

    // d
    #[tactic(auto, using(scheme::proofs::Modulus::bits_most), unfolding(scheme::specs::Basis::dropped))]
    pub fn drop_bits(self) -> u32
        ensures { (result ≡ dropped (basis self)) × (result ≤ 32) }
    {
        let log = self.log_basis;
        let levels = self.level_count;
        gadget_constants::drop_bits(self.value_bits(), log.get(), levels.get())
    }

    // H
    pub fn approximate_error_bound(self) -> u32
        ensures { result ≡ bound (basis self) }
    {
        gadget_constants::error_bound(self.drop_bits())
    }

    // The weights 2^d × B^j for j below L, as words; 0 above.
    #[tactic(auto, using(crate::proofs::Getters::weights_are))]
    pub fn scalars(self) -> [u32; 16]
        ensures { result ≡ tabulate 16 (weight_word self) }
    {
        let log = self.log_basis;
        let levels = self.level_count;
        gadget_constants::scalars_from(self.drop_bits(), log.get(), levels.get())
    }

    // T. Refuses by 1 to 3, 5.
    #[tactic(auto, using(check_order::proofs::Answers::served))]
    pub fn threshold(self) -> Result<u32, Refusal>
        ensures { result ≡ threshold_answer self }
    {
        self.refusal()?;
        let p = self.prepared();
        Ok(p.threshold)
    }

    // The adjusted word and the carry into the lowest level. Refuses by 1 to 3, 5, 14.
    pub fn init_value_carry(self, value: u32) -> Result<ValueCarry, Refusal>
        ensures { result ≡ init_answer self value }
    {
        self.word_refusal(value)?;
        let p = self.prepared();
        Ok(p.init_value_carry(value))
    }

    // The decomposer of a word, before its lowest level. Refuses by 1 to 3, 5, 14.
    pub fn decomposer(self, value: u32) -> Result<SignedDecomposer, Refusal>
        ensures { result ≡ decomposer_answer self value }
    {
        self.word_refusal(value)?;
        let p = self.prepared();
        Ok(p.decomposer(value))
    }

    // 1 to 3, 5, each in its field: a call that takes a basis sets its own fields on top.
    pub fn sizes(self) -> Sizes
        ensures { JudgesSizes (rows self) result }
    {
        let modulus = self.modulus;
        let log = self.log_basis;
        let levels = self.level_count;
        gadget_parameters::basis_sizes(modulus, log, levels)
    }

    // 1 to 3, 5
    pub fn refusal(self) -> Result<(), Refusal>
        ensures { code_of result ≡ refusal (rows self) }
    {
        let s = self.sizes();
        s.judge()
    }

    // 1 to 3, 5, 14
    pub(crate) fn word_refusal(self, value: u32) -> Result<(), Refusal>
        ensures { code_of result ≡ refusal (word_rows self value) }
    {
        let s = self.sizes();
        s.judge()?;
        let modulus = self.modulus;
        let mut v = Values::default();
        v.word = checks::word_refused(modulus, value);
        v.judge()
    }

    // 1 to 3, 5, 11, 14
    pub(crate) fn slice_refusal(self, values: &[u32], room: usize) -> Result<(), Refusal>
        ensures { code_of result ≡ refusal (slice_rows self values.now room) }
    {
        let levels = self.level_count;
        let mut s = self.sizes();
        s.output = levels.runs_differ(room, values.len());
        s.judge()?;
        let modulus = self.modulus;
        let mut v = Values::default();
        v.word = checks::words_refused(modulus, values);
        v.judge()
    }

    pub(crate) fn prepared(self) -> PreparedBasis
        requires { refusal (rows self) ≡ 0 }
        ensures { Ready result × (result ≡ prepared_by self) }
    {
        let modulus = self.modulus;
        let log = self.log_basis;
        let levels = self.level_count;
        gadget_constants::prepare(modulus, log.get(), levels.get())
    }
}
