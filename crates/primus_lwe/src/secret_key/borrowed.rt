// A lent secret key: encryption of an encoded plaintext, b = ⟨a, s⟩ + e + p, and the phase, b − ⟨a, s⟩.
ghost use Rattle.lwe_secret_key.specs.Key.{key_of};
ghost use Rattle.primus_lwe.specs.Answers.{Encrypts, TakesPhase};
ghost use Rattle.lwe_errors.specs.Errors.{errors_of};

use check_order::Refusal;
use lwe_errors::LweErrorsRef;
use lwe_parameters::{LweEncryptionParameters, LwePhaseParameters};
use lwe_refusals::{decrypt_refusal, encrypt_refusal};
use lwe_secret_key::LweSecretKeyRef;
use lwe_tag::LweTag;
use primus_reduce::Ring;

// b = ⟨a, s⟩ + e + p modulo q; out holds (a, b), with tally E. Refuses by 2, 6, 9, 11, 12, 13, 14, 15.
#[tactic(auto, using(crate::proofs::Laws::ring_judged))]
pub fn encrypt_encoded_to(
    params: LweEncryptionParameters,
    key: LweSecretKeyRef,
    mask: &[u32],
    errors: LweErrorsRef,
    plaintext: u32,
    out: &mut [u32],
) -> Result<LweTag, Refusal>
    ensures { Encrypts params (key_of key.entry) mask.now (errors_of errors.entry) plaintext out.old result out.new }
{
    encrypt_refusal(params, key, mask, errors, plaintext, out.len())?;
    let ring = Ring {
        modulus: params.modulus,
    };
    lwe_secret_key::encrypt_to(key, out, mask, errors, 0, plaintext, ring);
    Ok(LweTag::fresh(params.error_limit))
}

// b − ⟨a, s⟩ modulo q. Refuses by 2, 6, 9, 10, 14.
#[tactic(auto, using(crate::proofs::Laws::ring_judged))]
pub fn decrypt_phase(
    params: LwePhaseParameters,
    key: LweSecretKeyRef,
    ciphertext: &[u32],
) -> Result<u32, Refusal>
    ensures { TakesPhase params (key_of key.entry) ciphertext.now result }
{
    decrypt_refusal(params, None, key, ciphertext)?;
    let ring = Ring {
        modulus: params.modulus,
    };
    Ok(key.phase(ciphertext, ring))
}
