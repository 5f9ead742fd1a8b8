// The switch of a batch.
ghost use Rattle.std.specs.Prelude.{◌≡◌};
ghost use Rattle.scheme.specs.Checks.{refusal};
ghost use Rattle.check_order.specs.Answer.{code_of};
ghost use Rattle.key_switch.specs.Answers.{batch_rows, SwitchesBatch};

use crate::{switch_judged, switch_sizes};
use check_order::{Refusal, Values};
use key_switch_parameters::LweKeySwitchingParameters;
use lwe_tag::LweTag;

fn batch_refusal(
    params: LweKeySwitchingParameters,
    key: &[u32],
    input: &[u32],
    tags: &[LweTag],
    room: usize,
) -> Result<(), Refusal>
    ensures { code_of result ≡ refusal (batch_rows params key.now input.now tags.now room) }
{
    let n = params.input_dimension.get();
    let count = checks::batch_count(input.len(), n);
    let input_differs = checks::batch_differs(input.len(), n);
    let output_differs = checks::ciphertexts_differ(room, count, params.output_dimension.get());
    let mut s = switch_sizes(params, key, input_differs, output_differs);
    s.lent = checks::length_differs(tags.len(), count);
    s.judge()?;
    let mut v = Values::default();
    v.word = params.words_refused(key, input);
    v.tally = lwe_tag::any_refused(tags);
    v.judge()
}

// Each row of n + 1 words is switched to its own row of m + 1. `tags` has the tag of each row, and afterwards that of each row of the
// output: its c, and no tally. Refuses by 1 to 3, 5, 6, 9, 10, 11, 12 (another number of tags than of rows), 14, 17.
pub fn key_switch_batch_to(
    params: LweKeySwitchingParameters,
    key: &[u32],
    input: &[u32],
    tags: &mut [LweTag],
    out: &mut [u32],
) -> Result<(), Refusal>
    ensures { SwitchesBatch params key.now input.now tags.old
        out.old (code_of result) tags.new out.new }
{
    batch_refusal(params, key, input, tags, out.len())?;
    let count = checks::batch_count(input.len(), params.input_dimension.get());
    switch_judged(out, input, key, count, params);
    lwe_tag::without_tallies(tags);
    Ok(())
}
