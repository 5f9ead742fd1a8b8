// The entries of a key, judged and written. A crate below, not for users: its call has demands.
#![tactic(auto)]

ghost use Rattle.std.specs.Prelude.{◌≡◌, ◌||◌, ◌*◌, length};
ghost use Rattle.scheme.specs.Lwe.{key_length};
ghost use Rattle.scheme.specs.Checks.{refusal, length_fails, words_fail, key_fails};
ghost use Rattle.check_order.specs.Answer.{code_of};
ghost use Rattle.gadget_constants.specs.Prepared.{Ready};
ghost use Rattle.primus_decompose.specs.Answers.{rows, prepared_by};
ghost use Rattle.lwe_secret_key.specs.Key.{key_of};
ghost use Rattle.key_switch_parameters.specs.Answers.{q_in, n_in, m_in, levels_in};
ghost use Rattle.key_switch_entries.specs.Answers.{generate_rows, generated_for, Generable};
ghost use Rattle.lwe_errors.specs.Errors.{errors_of};

use check_order::{Refusal, Values};
use gadget_constants::PreparedBasis;
use key_switch_parameters::LweKeySwitchingParameters;
use lwe_errors::LweErrorsRef;
use lwe_secret_key::LweSecretKeyRef;
use primus_reduce::Ring;

// 9: the input key does not have n numbers, or the output key not m.
fn keys_differ(params: LweKeySwitchingParameters, key: LweSecretKeyRef, output_key: usize) -> bool
    ensures { result ≡ (length_fails output_key (m_in params)
        || length_fails (key_length (key_of key.entry)) (n_in params)) }
{
    let n = params.input_dimension;
    let m = params.output_dimension;
    m.differs(output_key) | key.differs(n)
}

// 12: there are not n × L errors, or not m mask words for each. No product of three: it could overflow.
fn lent_differs(params: LweKeySwitchingParameters, masks: usize, errors: usize) -> bool
    ensures { result ≡ (length_fails errors (n_in params * levels_in params)
        || length_fails masks (n_in params * levels_in params * m_in params)) }
{
    let n = params.input_dimension.get();
    let m = params.output_dimension.get();
    checks::runs_differ(errors, n, params.level_count()) | checks::runs_differ(masks, errors, m)
}

// 14, of both keys and the masks.
fn words_refused(
    params: LweKeySwitchingParameters,
    key: LweSecretKeyRef,
    output_key: &[u32],
    masks: &[u32],
) -> bool
    ensures { result ≡ ((words_fail (q_in params) masks.now
        || words_fail (q_in params) output_key.now)
        || key_fails (q_in params) (key_of key.entry)) }
{
    params.words_refused(output_key, masks) | key.refused(params.basis.modulus())
}

// The first refusal of a generation.
// Stays: keys, masks and errors each alone, as `generate` is lent them: a struct would be made in one line and taken apart in the next.
pub fn generate_refusal(
    params: LweKeySwitchingParameters,
    error_limit: u32,
    key: LweSecretKeyRef,
    output_key: &[u32],
    masks: &[u32],
    errors: LweErrorsRef,
    room: usize,
) -> Result<(), Refusal>
    ensures { code_of result ≡ refusal (generate_rows params error_limit
        (key_of key.entry) output_key.now
        masks.now (errors_of errors.entry) room) }
{
    let mut s = params.sizes();
    s.key = keys_differ(params, key, output_key.len());
    s.output = params.key_differs(room);
    s.lent = lent_differs(params, masks.len(), errors.count());
    s.error_limit = checks::error_limit_refused(error_limit, params.basis.modulus());
    s.judge()?;
    let mut v = Values::default();
    v.word = words_refused(params, key, output_key, masks)
        | errors.words_refused(params.basis.modulus());
    v.error = errors.outside(error_limit, params.basis.modulus());
    v.judge()
}

// The basis with its constants, for calls that have judged it.
// Stays beside the same step of primus_decompose, private since a user may call nothing that has a requires, and of key_switch, which does
// not name this crate, and would for one line.
fn prepared(params: LweKeySwitchingParameters) -> PreparedBasis
    requires { refusal (rows params.basis) ≡ 0 }
    ensures { Ready result × (result ≡ prepared_by params.basis) }
{
    let log = params.basis.log_basis();
    gadget_constants::prepare(params.basis.modulus(), log.get(), params.level_count())
}

// Every entry, for calls that have judged what they are lent: entry k = i × L + j has mask and error k.
// Stays: keys, masks and errors each alone, as in `generate_refusal`.
pub fn write_entries(
    out: &mut [u32],
    params: LweKeySwitchingParameters,
    key: LweSecretKeyRef,
    output_key: &[u32],
    masks: &[u32],
    errors: LweErrorsRef,
)
    requires { Generable params masks.now (errors_of errors) (length out.old) }
    ensures { out.new ≡ generated_for params (key_of key.entry)
        output_key.now (errors_of errors.entry) masks.now }
{
    let p = prepared(params);
    let modulus = p.modulus;
    let ring = Ring { modulus };
    let m = params.output_dimension.get();
    let weights = params.basis.scalars();
    let output = LweSecretKeyRef::Encoded(output_key);
    for k in 0..errors.count() {
        let i = k / p.level_count;
        let j = k % p.level_count;
        let secret = key.residue(i, modulus);
        let plaintext = modulus.reduce_mul(secret, weights[j]);
        lwe_secret_key::encrypt_row(output, out, masks, m, errors, k, plaintext, ring);
    }
}
