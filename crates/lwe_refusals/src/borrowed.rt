// An encoded plaintext, and phases.
ghost use Rattle.std.specs.Prelude.{◌≡◌, ◌||◌, ◌++◌};
ghost use Rattle.scheme.specs.Checks.{refusal, word_fails, words_fail, key_fails};
ghost use Rattle.primus_reduce.specs.Ring.{size_of};
ghost use Rattle.check_order.specs.Answer.{code_of};
ghost use Rattle.lwe_secret_key.specs.Key.{key_of};
ghost use Rattle.lwe_refusals.specs.Rows.{encrypt_rows, ciphertext_rows};
ghost use Rattle.lwe_parameters.specs.Answers.{judged_rows};
ghost use Rattle.lwe_errors.specs.Errors.{errors_of};

use check_order::{Refusal, Values};
use lwe_errors::LweErrorsRef;
use lwe_parameters::{LweEncryptionParameters, LwePhaseParameters};
use lwe_secret_key::LweSecretKeyRef;
use primus_reduce::Modulus;

// 14: of the key, the mask and the plaintext.
fn word_refused(key: LweSecretKeyRef, modulus: Modulus, mask: &[u32], plaintext: u32) -> bool
    ensures { result ≡ ((words_fail (size_of modulus) mask.now || key_fails (size_of modulus) (key_of key.entry))
        || word_fails (size_of modulus) plaintext) }
{
    key.refused_with(modulus, mask) | checks::word_refused(modulus, plaintext)
}

// What refuses an encryption of an encoded plaintext. Stays beside that of a message:
// in one function a match on what is encrypted would choose the checks twice, of the sizes and of the values.
pub fn encrypt_refusal(
    params: LweEncryptionParameters,
    key: LweSecretKeyRef,
    mask: &[u32],
    errors: LweErrorsRef,
    plaintext: u32,
    room: usize,
) -> Result<(), Refusal>
    ensures { code_of result ≡ refusal (encrypt_rows params (key_of key.entry) mask.now
        (errors_of errors.entry) plaintext room) }
{
    let mut s = params.sizes();
    s.key = key.differs(params.dimension);
    s.output = params.dimension.ciphertext_differs(room);
    s.lent = checks::lengths_differ(mask.len(), params.dimension.get(), errors.count(), 1);
    s.judge()?;
    let mut v = Values::default();
    v.word = word_refused(key, params.modulus, mask, plaintext)
        | errors.words_refused(params.modulus);
    v.error = errors.outside(params.error_limit, params.modulus);
    v.judge()
}

// What refuses a phase, or a decryption by a plaintext modulus.
pub fn decrypt_refusal(
    params: LwePhaseParameters,
    plaintext_modulus: Option<u32>,
    key: LweSecretKeyRef,
    ciphertext: &[u32],
) -> Result<(), Refusal>
    ensures { code_of result ≡ refusal (judged_rows plaintext_modulus params
        ++ ciphertext_rows params.modulus params.dimension.0 (key_of key.entry) ciphertext.now) }
{
    let mut s = params.sizes_with(plaintext_modulus);
    s.key = key.differs(params.dimension);
    s.input = params.dimension.ciphertext_differs(ciphertext.len());
    s.judge()?;
    let mut v = Values::default();
    v.word = key.refused_with(params.modulus, ciphertext);
    v.judge()
}
