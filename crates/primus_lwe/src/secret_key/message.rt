// Messages below t: encoded and encrypted, and decrypted again.
ghost use Rattle.lwe_secret_key.specs.Key.{key_of};
ghost use Rattle.primus_lwe.specs.Answers.{EncryptsMessage, Decrypts};
ghost use Rattle.lwe_errors.specs.Errors.{errors_of};

use check_order::Refusal;
use codec_words::Moduli;
use lwe_errors::LweErrorsRef;
use lwe_parameters::{LweDecryptionParameters, LweParameters};
use lwe_refusals::{decrypt_refusal, message_refusal};
use lwe_secret_key::LweSecretKeyRef;
use lwe_tag::LweTag;
use primus_encoding::PlaintextEmbedding;

// An encryption of encode(m), with tally E. Refuses by 2, 6, 7, 8, 9, 11, 12, 13, 14, 15, 16.
#[tactic(auto, using(crate::proofs::Laws::moduli_least, crate::proofs::Laws::moduli_below))]
pub fn encrypt_message_to(
    params: LweParameters,
    embedding: PlaintextEmbedding,
    key: LweSecretKeyRef,
    mask: &[u32],
    errors: LweErrorsRef,
    message: u32,
    out: &mut [u32],
) -> Result<LweTag, Refusal>
    ensures { EncryptsMessage params embedding (key_of key.entry) mask.now
        (errors_of errors.entry) message out.old result out.new }
{
    message_refusal(params, key, mask, errors, message, out.len())?;
    let moduli = Moduli {
        t: params.plaintext_modulus,
        modulus: params.modulus,
    };
    let plaintext = moduli.encode_as(embedding, message);
    lwe_secret_key::encrypt_to(key, out, mask, errors, 0, plaintext, moduli.ring());
    Ok(LweTag::fresh(params.error_limit))
}

// decode of the phase. Refuses by 2, 6, 7, 8, 9, 10, 14.
#[tactic(auto, using(crate::proofs::Laws::moduli_least, crate::proofs::Laws::moduli_below))]
pub fn decrypt_message(
    params: LweDecryptionParameters,
    key: LweSecretKeyRef,
    ciphertext: &[u32],
) -> Result<u32, Refusal>
    ensures { Decrypts params (key_of key.entry) ciphertext.now result }
{
    let modulus = params.modulus;
    let t = params.plaintext_modulus;
    decrypt_refusal(params.into(), Some(t), key, ciphertext)?;
    let moduli = Moduli { t, modulus };
    Ok(moduli.decode(key.phase(ciphertext, moduli.ring())))
}
