// What a key switch is set up with. `try_new` judges it at once; every call judges it again, with what it is lent.
#![tactic(auto)]

ghost use Rattle.std.specs.Prelude.{◌≡◌, ◌||◌, ◌+◌, ◌*◌};
ghost use Rattle.scheme.specs.Checks.{dimension_fails, length_fails, words_fail};
ghost use Rattle.check_order.specs.Judged.{JudgesSizes};
ghost use Rattle.key_switch_parameters.specs.Answers.{q_in, n_in, m_in, levels_in, key_words};
ghost use Rattle.key_switch_parameters.specs.Answers.{parameter_rows, parameters_answer, parameters_with};

use check_order::{Refusal, Sizes};
use primus_decompose::ApproxSignedBasis;
use primus_lattice::LweDimension;
use primus_reduce::Modulus;

// The basis with its modulus, the dimension n of the input and m of the output.
#[derive(Clone, Copy)]
pub struct LweKeySwitchingParameters {
    pub basis: ApproxSignedBasis,
    pub input_dimension: LweDimension,
    pub output_dimension: LweDimension,
}

// 9, 11: `len` is not n × L entries of m + 1 words. No product: it could overflow.
#[tactic(auto, using(checks::proofs::Laws::rows_cut, checks::proofs::Laws::rows_whole))]
fn entries_differ(len: usize, n: usize, levels: usize, m: usize) -> bool
    ensures { result ≡ length_fails len (n * levels * (m + 1)) }
{
    if checks::batch_differs(len, m) {
        return true;
    }
    checks::runs_differ(checks::batch_count(len, m), n, levels)
}

impl LweKeySwitchingParameters {
    // Refuses by 1 to 3, 5, 6.
    // Stays: a try_new for each kind, as in the Rust; TryFrom would take its parameters as a tuple, without their names.
    pub fn try_new(
        basis: ApproxSignedBasis,
        input_dimension: LweDimension,
        output_dimension: LweDimension,
    ) -> Result<LweKeySwitchingParameters, Refusal>
        ensures { result ≡ parameters_answer (record {
          basis = basis;
          input_dimension = input_dimension;
          output_dimension = output_dimension;
        }) }
    {
        let params = LweKeySwitchingParameters {
            basis,
            input_dimension,
            output_dimension,
        };
        params.sizes().judge()?;
        Ok(params)
    }

    // Any numbers, as a caller gives them, levels 0 left open: the calls judge them by 1 to 3, 5, 6.
    // Stays: a name of its own, no From: beside try_new a From would be read as the judged way.
    pub fn given(
        modulus: Modulus,
        base_log: u32,
        levels: u32,
        n: usize,
        m: usize,
    ) -> LweKeySwitchingParameters
        ensures { result ≡ parameters_with modulus base_log levels n m }
    {
        LweKeySwitchingParameters {
            basis: ApproxSignedBasis::given(modulus, base_log, levels),
            input_dimension: LweDimension::given(n),
            output_dimension: LweDimension::given(m),
        }
    }

    // 1 to 3, 5, 6, each in its field: a call sets its own fields on top.
    pub fn sizes(self) -> Sizes
        ensures { JudgesSizes (parameter_rows self) result }
    {
        let mut s = self.basis.sizes();
        s.dimension = self.dimensions_refused();
        s
    }

    // 6, of n and of m.
    fn dimensions_refused(self) -> bool
        ensures { result ≡ (dimension_fails (m_in self) || dimension_fails (n_in self)) }
    {
        self.output_dimension.refused() | self.input_dimension.refused()
    }

    // L
    pub fn level_count(self) -> usize
        ensures { result ≡ levels_in self }
    {
        self.basis.level_count().get()
    }

    // 9, 11: `len` is not the length of a key.
    pub fn key_differs(self, len: usize) -> bool
        ensures { result ≡ length_fails len (key_words self) }
    {
        let n = self.input_dimension.get();
        let m = self.output_dimension.get();
        entries_differ(len, n, self.level_count(), m)
    }

    // 14, of a key and of ciphertexts.
    pub fn words_refused(self, key: &[u32], input: &[u32]) -> bool
        ensures { result ≡
            (words_fail (q_in self) input.now || words_fail (q_in self) key.now) }
    {
        checks::both_refused(self.basis.modulus(), key, input)
    }
}
