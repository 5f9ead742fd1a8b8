// Packed messages below t.
ghost use Rattle.std.specs.Prelude.{◌≡◌};
ghost use Rattle.scheme.specs.Checks.{refusal};
ghost use Rattle.check_order.specs.Answer.{code_of};
ghost use Rattle.lwe_packed_refusals.specs.Rows.{packed_message_rows};
ghost use Rattle.lwe_errors.specs.Errors.{errors_of};

use crate::packed;
use check_order::{Refusal, Values};
use lwe_errors::LweErrorsRef;
use lwe_parameters::LweParameters;

// What refuses packed messages. Stays beside that of plaintexts, as said there.
pub fn packed_message_refusal(
    params: LweParameters,
    secret: &[u32],
    mask: &[u32],
    errors: LweErrorsRef,
    messages: &[u32],
    room: usize,
) -> Result<(), Refusal>
    ensures { code_of result ≡ refusal (packed_message_rows params secret.now mask.now
        (errors_of errors.entry) messages.now room) }
{
    let dimension = params.dimension;
    let count = messages.len();
    let mut s = params.sizes();
    s.key = dimension.differs(secret.len());
    s.input = packed::count_refused(dimension, count);
    s.output = packed::room_differs(dimension, room, count);
    s.lent = checks::lengths_differ(mask.len(), dimension.get(), errors.count(), count);
    s.judge()?;
    let mut v = Values::default();
    v.word = checks::both_refused(params.modulus, secret, mask)
        | errors.words_refused(params.modulus);
    v.error = errors.outside(params.error_limit, params.modulus);
    v.message = checks::messages_refused(params.plaintext_modulus, messages);
    v.judge()
}
