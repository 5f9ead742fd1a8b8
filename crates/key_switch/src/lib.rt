// LWE key switching over words of 32 bits: (0, b) minus the sum of digit(i, j) × entry(i, j) modulo q.
// Stays: each lent buffer is a parameter of its own, as in the Rust and in C; what refuses a call takes them as they come.
#![tactic(auto)]

ghost use Rattle.std.specs.Prelude.{◌≡◌, [], length};
ghost use Rattle.scheme.specs.Switch.{switched_batch};
ghost use Rattle.scheme.specs.Checks.{refusal};
ghost use Rattle.check_order.specs.Answer.{code_of};
ghost use Rattle.primus_decompose.specs.Answers.{basis};
ghost use Rattle.key_switch_parameters.specs.Answers.{n_in, m_in};
ghost use Rattle.check_order.specs.Judged.{JudgesSizes};
ghost use Rattle.key_switch.specs.Answers.{input_rows, switch_rows, Switches, Switchable};

mod batch;

pub use batch::key_switch_batch_to;
use check_order::{Refusal, Sizes, Values};
use key_switch_kernel::switch_tiles;
pub use key_switch_key::LweKeySwitchingKey;
pub use key_switch_parameters::LweKeySwitchingParameters;
use key_switch_tile::Shape;
use lwe_tag::LweTag;

// The numbers and lengths that both switches judge, where 10 and 11 are judged by the caller.
pub(crate) fn switch_sizes(
    params: LweKeySwitchingParameters,
    key: &[u32],
    input_differs: bool,
    output_differs: bool,
) -> Sizes
    ensures { JudgesSizes (input_rows params key.now [] input_differs output_differs) result }
{
    let mut s = params.sizes();
    s.key = params.key_differs(key.len());
    s.input = input_differs;
    s.output = output_differs;
    s
}

fn switch_refusal(
    params: LweKeySwitchingParameters,
    key: &[u32],
    input: &[u32],
    tag: LweTag,
    room: usize,
) -> Result<(), Refusal>
    ensures { code_of result ≡ refusal (switch_rows params key.now input.now tag room) }
{
    let input_differs = params.input_dimension.ciphertext_differs(input.len());
    let output_differs = params.output_dimension.ciphertext_differs(room);
    switch_sizes(params, key, input_differs, output_differs).judge()?;
    let mut v = Values::default();
    v.word = params.words_refused(key, input);
    v.tally = tag.refused();
    v.judge()
}

// `count` ciphertexts whose checks have passed.
// Stays: `count`: from a length it is a quotient by n + 1, which a batch has in its checks, and one ciphertext is 1. The basis is prepared
// as in key_switch_entries, which this crate does not name, and would for one line.
pub(crate) fn switch_judged(
    out: &mut [u32],
    input: &[u32],
    key: &[u32],
    count: usize,
    params: LweKeySwitchingParameters,
)
    requires { Switchable params key.now input.now count (length out.old) }
    ensures { out.new ≡ switched_batch (basis params.basis) (n_in params) (m_in params)
        key.now count input.now }
{
    let basis = params.basis;
    let log = basis.log_basis();
    let shape = Shape {
        n: params.input_dimension.get(),
        m: params.output_dimension.get(),
        basis: gadget_constants::prepare(basis.modulus(), log.get(), params.level_count()),
    };
    switch_tiles(out, input, key, count, shape);
}

// One ciphertext, as a batch of one row, and its tag: the c of the input, and no tally. Refuses by 1 to 3, 5, 6, 9, 10, 11, 14, 17.
pub fn key_switch_to(
    params: LweKeySwitchingParameters,
    key: &[u32],
    input: &[u32],
    tag: LweTag,
    out: &mut [u32],
) -> Result<LweTag, Refusal>
    ensures { Switches params key.now input.now tag
        out.old result out.new }
{
    switch_refusal(params, key, input, tag, out.len())?;
    switch_judged(out, input, key, 1, params);
    Ok(tag.without_tally())
}
