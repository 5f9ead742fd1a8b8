// Messages below t.
ghost use Rattle.std.specs.Prelude.{◌≡◌};
ghost use Rattle.scheme.specs.Checks.{refusal};
ghost use Rattle.check_order.specs.Answer.{code_of};
ghost use Rattle.lwe_secret_key.specs.Key.{key_of};
ghost use Rattle.lwe_refusals.specs.Rows.{message_rows};
ghost use Rattle.lwe_errors.specs.Errors.{errors_of};

use check_order::{Refusal, Values};
use lwe_errors::LweErrorsRef;
use lwe_parameters::LweParameters;
use lwe_secret_key::LweSecretKeyRef;

// What refuses an encryption of a message. Stays beside that of a plaintext, as said there.
pub fn message_refusal(
    params: LweParameters,
    key: LweSecretKeyRef,
    mask: &[u32],
    errors: LweErrorsRef,
    message: u32,
    room: usize,
) -> Result<(), Refusal>
    ensures { code_of result ≡ refusal (message_rows params (key_of key.entry) mask.now
        (errors_of errors.entry) message room) }
{
    let mut s = params.sizes();
    s.key = key.differs(params.dimension);
    s.output = params.dimension.ciphertext_differs(room);
    s.lent = checks::lengths_differ(mask.len(), params.dimension.get(), errors.count(), 1);
    s.judge()?;
    let mut v = Values::default();
    v.word = key.refused_with(params.modulus, mask) | errors.words_refused(params.modulus);
    v.error = errors.outside(params.error_limit, params.modulus);
    v.message = checks::message_refused(params.plaintext_modulus, message);
    v.judge()
}
