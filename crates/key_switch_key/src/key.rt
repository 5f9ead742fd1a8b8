// The key: for mask place i and level j an entry of m + 1 words, in order of i, then j.
ghost use Rattle.std.specs.Prelude.{◌≡◌, length};
ghost use Rattle.scheme.specs.Checks.{refusal};
ghost use Rattle.check_order.specs.Answer.{code_of};
ghost use Rattle.lwe_secret_key.specs.Key.{key_of};
ghost use Rattle.key_switch_key.specs.Answers.{entry_rows, entry_answer, entry_part, Generates};
ghost use Rattle.lwe_errors.specs.Errors.{errors_of};

use check_order::Refusal;
use key_switch_entries::{generate_refusal, write_entries};
use key_switch_parameters::LweKeySwitchingParameters;
use lwe_errors::LweErrorsRef;
use lwe_secret_key::LweSecretKeyRef;

// Its words are lent. Stays: no field for them: `generate` writes what it is lent, and C lends them to each call.
#[derive(Clone, Copy)]
pub struct LweKeySwitchingKey {}

// 1 to 3, 5, 6, 9
fn entry_refusal(params: LweKeySwitchingParameters, len: usize) -> Result<(), Refusal>
    ensures { code_of result ≡ refusal (entry_rows params len) }
{
    let mut s = params.sizes();
    s.key = params.key_differs(len);
    s.judge()
}

impl LweKeySwitchingKey {
    // Where in the lent key the m + 1 words of entry (i, j) begin; `None` where i ≥ n or j ≥ L. Refuses by 1 to 3, 5, 6, 9.
    pub fn entry(
        params: LweKeySwitchingParameters,
        key: &[u32],
        i: usize,
        j: usize,
    ) -> Result<Option<usize>, Refusal>
        ensures { result ≡ entry_answer params (length key.now) i j }
    {
        entry_refusal(params, key.len())?;
        let n = params.input_dimension;
        let levels = params.level_count();
        if (n.get() <= i) | (levels <= j) {
            return Ok(None);
        }
        let m = params.output_dimension;
        let width = m.get() + 1;
        Ok(Some((i * levels + j) * width))
    }

    // Entry (i, j), as that part of the lent key; an empty part where `entry` gives no place.
    // Stays: no Result: a call that could not fail goes on so for its users, and `entry` says why there is no part.
    pub fn entry_words(params: LweKeySwitchingParameters, key: &[u32], i: usize, j: usize) -> &[u32]
        ensures { result.now ≡ entry_part params key.now i j }
    {
        let Ok(place) = LweKeySwitchingKey::entry(params, key, i, j) else {
            return &key[..0];
        };
        let Some(start) = place else {
            return &key[..0];
        };
        let m = params.output_dimension;
        let end = start + (m.get() + 1);
        &key[start..end]
    }

    // Entry (i, j) encrypts sᵢ × weight j under the output key, with mask and error i × L + j; errors lie within ±E.
    // Refuses by 1 to 3, 5, 6, 9, 11, 12, 13, 14, 15.
    pub fn generate(
        params: LweKeySwitchingParameters,
        error_limit: u32,
        input_key: LweSecretKeyRef,
        output_key: &[u32],
        masks: &[u32],
        errors: LweErrorsRef,
        out: &mut [u32],
    ) -> Result<(), Refusal>
        ensures { Generates params error_limit (key_of input_key.entry)
            output_key.now masks.now (errors_of errors.entry)
            out.old (code_of result) out.new }
    {
        generate_refusal(
            params,
            error_limit,
            input_key,
            output_key,
            masks,
            errors,
            out.len(),
        )?;
        write_entries(out, params, input_key, output_key, masks, errors);
        Ok(())
    }
}
