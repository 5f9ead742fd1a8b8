// How many words a caller allocates, or the first refusal.
ghost use Rattle.std.specs.Prelude.{◌≡◌, ◌+◌, ◌*◌};
ghost use Rattle.scheme.specs.Checks.{refusal};
ghost use Rattle.check_order.specs.Answer.{code_of, answer};
ghost use Rattle.check_order.specs.Judged.{JudgesSizes};
ghost use Rattle.key_switch_parameters.specs.Answers.{parameter_rows, key_words};
ghost use Rattle.c_numbers.specs.Lengths.{dimension_rows, packed_rows};

use check_order::{Refusal, Sizes};
use key_switch_parameters::LweKeySwitchingParameters;
use primus_lattice::LweDimension;

// 6.
fn dimension_sizes(n: usize) -> Sizes
    ensures { JudgesSizes (dimension_rows n) result }
{
    let mut s = Sizes::default();
    s.dimension = LweDimension::given(n).refused();
    s
}

// 6. Stays beside `LweDimension::try_new`: with the sizes that packed words need too, it is one line.
fn dimension_refusal(n: usize) -> Result<(), Refusal>
    ensures { code_of result ≡ refusal (dimension_rows n) }
{
    dimension_sizes(n).judge()
}

// 6, and 10 for more than n bodies.
fn packed_refusal(n: usize, count: usize) -> Result<(), Refusal>
    ensures { code_of result ≡ refusal (packed_rows n count) }
{
    let mut s = dimension_sizes(n);
    s.input = n < count;
    s.judge()
}

// A ciphertext. Refuses by 6.
#[tactic(auto, using(check_order::proofs::Answers::served, crate::proofs::Allocated::row_few))]
pub fn ciphertext_words(n: usize) -> Result<u32, Refusal>
    ensures { result ≡ answer (dimension_rows n) (n + 1) }
{
    dimension_refusal(n)?;
    Ok((n + 1) as u32)
}

// A packed ciphertext with `count` bodies. Refuses by 6, 10.
#[tactic(auto, using(check_order::proofs::Answers::served, crate::proofs::Allocated::packed_few))]
pub fn packed_words(n: usize, count: usize) -> Result<u32, Refusal>
    ensures { result ≡ answer (packed_rows n count) (n + count) }
{
    packed_refusal(n, count)?;
    Ok((n + count) as u32)
}

// A public key. Refuses by 6.
#[tactic(auto, using(check_order::proofs::Answers::served, crate::proofs::Allocated::row_few, crate::proofs::Allocated::square_few))]
pub fn public_key_words(n: usize) -> Result<u32, Refusal>
    ensures { result ≡ answer (dimension_rows n) (n * (n + 1)) }
{
    dimension_refusal(n)?;
    Ok((n * (n + 1)) as u32)
}

// 1 to 3, 5, 6.
fn switching_refusal(params: LweKeySwitchingParameters) -> Result<(), Refusal>
    ensures { code_of result ≡ refusal (parameter_rows params) }
{
    params.sizes().judge()
}

// A switching key. Refuses by 1 to 3, 5, 6.
#[tactic(auto, using(check_order::proofs::Answers::served, crate::proofs::Allocated::entries_few, crate::proofs::Allocated::entry_few, crate::proofs::Allocated::key_few))]
pub fn switching_key_words(params: LweKeySwitchingParameters) -> Result<u32, Refusal>
    ensures { result ≡ answer (parameter_rows params) (key_words params) }
{
    switching_refusal(params)?;
    let n = params.input_dimension;
    let m = params.output_dimension;
    let entries = n.get() * params.level_count();
    Ok((entries * (m.get() + 1)) as u32)
}
