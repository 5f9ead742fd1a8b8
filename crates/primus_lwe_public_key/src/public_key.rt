// The public key: n encryptions of 0, one after the other. Encryption adds and subtracts its rows.
ghost use Rattle.std.specs.Prelude.{◌≡◌, ◌||◌, ◌+◌, length};
ghost use Rattle.scheme.specs.Lwe.{error_values};
ghost use Rattle.scheme.specs.Checks.{refusal, length_fails, word_fails, words_fail, errors_fail, coefficients_fail};
ghost use Rattle.primus_reduce.specs.Ring.{size_of};
ghost use Rattle.check_order.specs.Answer.{code_of};
ghost use Rattle.lwe_secret_key.specs.Key.{key_of};
ghost use Rattle.primus_lwe_public_key.specs.Answers.{generate_rows, GeneratesPublicKey};
ghost use Rattle.primus_lwe_public_key.specs.Answers.{public_rows, EncryptsPublic};
ghost use Rattle.primus_lwe_public_key.specs.Answers.{public_message_rows, EncryptsPublicMessage};
ghost use Rattle.lwe_errors.specs.Errors.{errors_of};

use check_order::{Refusal, Values};
use codec_words::{Moduli, PlaintextEmbedding};
use lwe_errors::LweErrorsRef;
use lwe_secret_key::LweSecretKeyRef;
use lwe_tag::LweTag;
use primus_lattice::LweDimension;
use primus_lwe::{LweEncryptionParameters, LweParameters};
use primus_reduce::{Modulus, Ring};

// Its words are lent: n rows of n + 1. Stays: no field for them: `generate` writes what it is lent, and C lends them to each call.
#[derive(Clone, Copy)]
pub struct LwePublicKey {}

fn generate_refusal(
    params: LweEncryptionParameters,
    secret: LweSecretKeyRef,
    masks: &[u32],
    errors: LweErrorsRef,
    room: usize,
) -> Result<(), Refusal>
    ensures { code_of result ≡ refusal (generate_rows params (key_of secret.entry)
        masks.now (errors_of errors.entry) room) }
{
    let dimension = params.dimension;
    let n = dimension.get();
    let mut s = params.sizes();
    s.key = secret.differs(dimension);
    s.output = checks::ciphertexts_differ(room, n, n);
    s.lent = checks::masks_or_errors_differ(masks.len(), errors.count(), n, n);
    s.judge()?;
    let mut v = Values::default();
    v.word = secret.refused_with(params.modulus, masks) | errors.words_refused(params.modulus);
    v.error = errors.outside(params.error_limit, params.modulus);
    v.judge()
}

// 12: there are not n + 1 errors, or not n coefficients.
fn lent_differs(errors: usize, coefficients: usize, dimension: LweDimension) -> bool
    ensures { result ≡ (length_fails coefficients dimension.0 || length_fails errors (dimension.0 + 1)) }
{
    dimension.differs(coefficients) | dimension.ciphertext_differs(errors)
}

// 14: of the key and the plaintext.
fn word_refused(modulus: Modulus, key: &[u32], plaintext: u32) -> bool
    ensures { result ≡ (word_fails (size_of modulus) plaintext || words_fail (size_of modulus) key.now) }
{
    checks::word_refused(modulus, plaintext) | checks::words_refused(modulus, key)
}

// 15: of the errors and the coefficients.
fn lent_refused(
    error_limit: u32,
    modulus: Modulus,
    errors: LweErrorsRef,
    coefficients: &[i32],
) -> bool
    ensures { result ≡
        (coefficients_fail coefficients.now
        || errors_fail error_limit (error_values (size_of modulus) (errors_of errors.entry))) }
{
    checks::coefficients_refused(coefficients) | errors.outside(error_limit, modulus)
}

// Stays beside that of a message: in one function a match on what is encrypted would choose the checks twice, of the sizes and of the values.
fn public_refusal(
    params: LweEncryptionParameters,
    key: &[u32],
    errors: LweErrorsRef,
    coefficients: &[i32],
    plaintext: u32,
    room: usize,
) -> Result<(), Refusal>
    ensures { code_of result ≡ refusal (public_rows params key.now (errors_of errors.entry)
        coefficients.now plaintext room) }
{
    let dimension = params.dimension;
    let n = dimension.get();
    let mut s = params.sizes();
    s.key = checks::ciphertexts_differ(key.len(), n, n);
    s.output = dimension.ciphertext_differs(room);
    s.lent = lent_differs(errors.count(), coefficients.len(), dimension);
    s.judge()?;
    let mut v = Values::default();
    v.word = word_refused(params.modulus, key, plaintext) | errors.words_refused(params.modulus);
    v.error = lent_refused(params.error_limit, params.modulus, errors, coefficients);
    v.judge()
}

// Stays beside that of a plaintext, as said there.
fn public_message_refusal(
    params: LweParameters,
    key: &[u32],
    errors: LweErrorsRef,
    coefficients: &[i32],
    message: u32,
    room: usize,
) -> Result<(), Refusal>
    ensures { code_of result ≡ refusal (public_message_rows params key.now (errors_of errors.entry)
        coefficients.now message room) }
{
    let dimension = params.dimension;
    let n = dimension.get();
    let mut s = params.sizes();
    s.key = checks::ciphertexts_differ(key.len(), n, n);
    s.output = dimension.ciphertext_differs(room);
    s.lent = lent_differs(errors.count(), coefficients.len(), dimension);
    s.judge()?;
    let mut v = Values::default();
    v.word = checks::words_refused(params.modulus, key) | errors.words_refused(params.modulus);
    v.error = lent_refused(params.error_limit, params.modulus, errors, coefficients);
    v.message = checks::message_refused(params.plaintext_modulus, message);
    v.judge()
}

impl LwePublicKey {
    // n encryptions of 0 in out, from n masks and n errors. Refuses by 2, 6, 9, 11, 12, 13, 14, 15.
    #[tactic(auto, using(primus_lwe::proofs::Laws::ring_judged))]
    pub fn generate(
        params: LweEncryptionParameters,
        secret: LweSecretKeyRef,
        masks: &[u32],
        errors: LweErrorsRef,
        out: &mut [u32],
    ) -> Result<(), Refusal>
        ensures { GeneratesPublicKey params (key_of secret.entry) masks.now
            (errors_of errors.entry) out.old (code_of result) out.new }
    {
        generate_refusal(params, secret, masks, errors, out.len())?;
        let ring = Ring {
            modulus: params.modulus,
        };
        let n = params.dimension.get();
        lwe_public_rows::write_zeros(out, secret, masks, n, errors, ring);
        Ok(())
    }

    // An encryption of p from n + 1 errors and n coefficients; no tally. Refuses by 2, 6, 9, 11, 12, 13, 14, 15.
    #[tactic(auto, using(primus_lwe::proofs::Laws::ring_judged))]
    pub fn encrypt_encoded_to(
        params: LweEncryptionParameters,
        key: &[u32],
        errors: LweErrorsRef,
        coefficients: &[i32],
        plaintext: u32,
        out: &mut [u32],
    ) -> Result<LweTag, Refusal>
        ensures { EncryptsPublic params key.now (errors_of errors.entry) coefficients.now
            plaintext out.old result out.new }
    {
        public_refusal(params, key, errors, coefficients, plaintext, out.len())?;
        let ring = Ring {
            modulus: params.modulus,
        };
        lwe_public_rows::write_public(out, key, errors, coefficients, plaintext, ring);
        Ok(LweTag::untallied())
    }

    // An encryption of encode(m); no tally. Refuses by 2, 6, 7, 8, 9, 11, 12, 13, 14, 15, 16.
    #[tactic(auto, using(primus_lwe::proofs::Laws::moduli_least, primus_lwe::proofs::Laws::moduli_below))]
    pub fn encrypt_message_to(
        params: LweParameters,
        embedding: PlaintextEmbedding,
        key: &[u32],
        errors: LweErrorsRef,
        coefficients: &[i32],
        message: u32,
        out: &mut [u32],
    ) -> Result<LweTag, Refusal>
        ensures { EncryptsPublicMessage params embedding key.now (errors_of errors.entry)
            coefficients.now message out.old result out.new }
    {
        public_message_refusal(params, key, errors, coefficients, message, out.len())?;
        let moduli = Moduli {
            t: params.plaintext_modulus,
            modulus: params.modulus,
        };
        let plaintext = moduli.encode_as(embedding, message);
        lwe_public_rows::write_public(out, key, errors, coefficients, plaintext, moduli.ring());
        Ok(LweTag::untallied())
    }
}
