// Messages and phases of a batch.
ghost use Rattle.std.specs.Prelude.{◌≡◌, ◌++◌};
ghost use Rattle.scheme.specs.Lwe.{Words};
ghost use Rattle.scheme.specs.Checks.{refusal};
ghost use Rattle.check_order.specs.Answer.{code_of};
ghost use Rattle.lwe_parameters.specs.Answers.{judged_rows};
ghost use Rattle.lwe_batch_refusals.specs.Rows.{encrypt_batch_rows, batch_rows};
ghost use Rattle.lwe_errors.specs.Errors.{errors_of};

use check_order::{Refusal, Values};
use lwe_errors::LweErrorsRef;
use lwe_parameters::{LweParameters, LwePhaseParameters};

// What refuses encryptions of messages. Stays beside that of one message, whose lengths are a row's: as a batch of one it would ask for
// products of lengths, and for a slice of one.
pub fn encrypt_refusal(
    params: LweParameters,
    secret: &[u32],
    masks: &[u32],
    errors: LweErrorsRef,
    messages: &[u32],
    room: usize,
) -> Result<(), Refusal>
    ensures { code_of result ≡ refusal (encrypt_batch_rows params (Words secret.now) masks.now
        (errors_of errors.entry) messages.now room) }
{
    let count = messages.len();
    let n = params.dimension.get();
    let mut s = params.sizes();
    s.key = params.dimension.differs(secret.len());
    s.output = checks::ciphertexts_differ(room, count, n);
    s.lent = checks::masks_or_errors_differ(masks.len(), errors.count(), count, n);
    s.judge()?;
    let mut v = Values::default();
    v.word = checks::both_refused(params.modulus, secret, masks)
        | errors.words_refused(params.modulus);
    v.error = errors.outside(params.error_limit, params.modulus);
    v.message = checks::messages_refused(params.plaintext_modulus, messages);
    v.judge()
}

// What refuses phases of a batch, or its decryption by a plaintext modulus. Stays beside that of a packed ciphertext: one
// for both would be handed two lengths judged by its callers, as booleans.
pub fn decrypt_refusal(
    params: LwePhaseParameters,
    plaintext_modulus: Option<u32>,
    secret: &[u32],
    input: &[u32],
    room: usize,
) -> Result<(), Refusal>
    ensures { code_of result ≡ refusal (judged_rows plaintext_modulus params
        ++ batch_rows params.modulus params.dimension.0 (Words secret.now) input.now
        room) }
{
    let n = params.dimension.get();
    let mut s = params.sizes_with(plaintext_modulus);
    s.key = params.dimension.differs(secret.len());
    s.input = checks::batch_differs(input.len(), n);
    s.output = room != checks::batch_count(input.len(), n);
    s.judge()?;
    let mut v = Values::default();
    v.word = checks::both_refused(params.modulus, secret, input);
    v.judge()
}
