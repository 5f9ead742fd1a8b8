// Messages and phases of a batch.
ghost use Rattle.std.specs.Prelude.{◌≡◌, false, ◌+◌, ◌*◌, ◌≤◌, pos, length, get_or};
ghost use Rattle.scheme.specs.Numbers.{tabulate};
ghost use Rattle.scheme.specs.Lwe.{Words, words, encrypted_rows};
ghost use Rattle.scheme.specs.Checks.{messages_fail};
ghost use Rattle.primus_reduce.specs.Ring.{size_of};
ghost use Rattle.check_order.specs.Answer.{code_of};
ghost use Rattle.codec_words.specs.Embedding.{encode_word};
ghost use Rattle.lwe_secret_key.specs.Runs.{Run};
ghost use Rattle.primus_lwe_batch.specs.Answers.{EncryptsBatch, batch_phase, TakesPhases, DecryptsBatch};
ghost use Rattle.lwe_errors.specs.Errors.{errors_of, errors_in};

use check_order::Refusal;
use codec_words::{Moduli, PlaintextEmbedding};
use lwe_batch_refusals::{decrypt_refusal, encrypt_refusal};
use lwe_errors::LweErrorsRef;
use lwe_parameters::{LweDecryptionParameters, LweParameters, LwePhaseParameters};
use lwe_secret_key::LweSecretKeyRef;
use lwe_tag::LweTag;
use primus_reduce::Ring;

// A row for each message.
#[tactic(auto, using(lwe_secret_key::proofs::Runs::rows_done))]
fn write_messages(
    out: &mut [u32],
    moduli: Moduli,
    embedding: PlaintextEmbedding,
    secret: &[u32],
    masks: &[u32],
    errors: LweErrorsRef,
    messages: &[u32],
)
    requires { Run (length secret.now) (length masks.now) (length messages.now) (length out.old)
        × (messages_fail moduli.t messages.now ≡ false) }
    ensures { out.new ≡
        encrypted_rows (size_of moduli.modulus) (length secret.now) (length messages.now)
        masks.now (words secret.now) (errors_in moduli.modulus errors.entry)
        (λ i. pos (encode_word embedding (size_of moduli.modulus) moduli.t (get_or messages.now i 0))) }
{
    let key = LweSecretKeyRef::Encoded(secret);
    let n = secret.len();
    for (i, message) in messages.iter().enumerate() {
        let plaintext = moduli.encode_as(embedding, *message);
        lwe_secret_key::encrypt_row(key, out, masks, n, errors, i, plaintext, moduli.ring());
    }
}

// An encryption of encode(m) for each message, if any; each row has tally E. Refuses by 2, 6, 7, 8, 9, 11, 12, 13, 14, 15, 16.
#[tactic(auto, using(primus_lwe::proofs::Laws::moduli_least, primus_lwe::proofs::Laws::moduli_below))]
pub fn encrypt_message_batch_to(
    params: LweParameters,
    embedding: PlaintextEmbedding,
    secret: &[u32],
    masks: &[u32],
    errors: LweErrorsRef,
    messages: &[u32],
    out: &mut [u32],
) -> Result<LweTag, Refusal>
    ensures { EncryptsBatch params embedding (Words secret.now) masks.now
        (errors_of errors.entry) messages.now out.old result out.new }
{
    encrypt_refusal(params, secret, masks, errors, messages, out.len())?;
    let moduli = Moduli {
        t: params.plaintext_modulus,
        modulus: params.modulus,
    };
    write_messages(out, moduli, embedding, secret, masks, errors, messages);
    Ok(LweTag::fresh(params.error_limit))
}

// The phase of row i. Stays: i beside a slice: it is a place in the batch, and no length of it.
fn row_phase(input: &[u32], secret: &[u32], i: usize, ring: Ring) -> u32
    requires { i * (length secret.now + 1) + (length secret.now + 1) ≤ length input.now }
    ensures { result ≡ batch_phase (size_of ring.modulus) (length secret.now)
        (Words secret.now) input.now i }
{
    let n = secret.len();
    let at = i * (n + 1);
    LweSecretKeyRef::Encoded(secret).phase(&input[at..at + (n + 1)], ring)
}

#[tactic(auto, using(scheme::proofs::Lists::is_tabulate))]
fn row_phases(out: &mut [u32], input: &[u32], secret: &[u32], ring: Ring)
    requires { length input.now ≡ length out.old * (length secret.now + 1) }
    ensures { out.new ≡ tabulate (length out.old)
        (batch_phase (size_of ring.modulus) (length secret.now) (Words secret.now)
        input.now) }
{
    for (i, phase) in out.iter_mut().enumerate() {
        *phase = row_phase(input, secret, i, ring);
    }
}

// The phase of each ciphertext. Refuses by 2, 6, 9, 10, 11, 14.
#[tactic(auto, using(primus_lwe::proofs::Laws::ring_judged))]
pub fn decrypt_phase_batch_to(
    params: LwePhaseParameters,
    secret: &[u32],
    input: &[u32],
    out: &mut [u32],
) -> Result<(), Refusal>
    ensures { TakesPhases params (Words secret.now) input.now out.old (code_of result)
        out.new }
{
    decrypt_refusal(params, None, secret, input, out.len())?;
    let ring = Ring {
        modulus: params.modulus,
    };
    row_phases(out, input, secret, ring);
    Ok(())
}

// decode of the phase of each ciphertext. Refuses by 2, 6, 7, 8, 9, 10, 11, 14.
#[tactic(auto, using(primus_lwe::proofs::Laws::moduli_least, primus_lwe::proofs::Laws::moduli_below))]
pub fn decrypt_message_batch_to(
    params: LweDecryptionParameters,
    secret: &[u32],
    input: &[u32],
    out: &mut [u32],
) -> Result<(), Refusal>
    ensures { DecryptsBatch params (Words secret.now) input.now out.old (code_of result)
        out.new }
{
    let modulus = params.modulus;
    let t = params.plaintext_modulus;
    decrypt_refusal(params.into(), Some(t), secret, input, out.len())?;
    let moduli = Moduli { t, modulus };
    row_phases(out, input, secret, moduli.ring());
    moduli.decode_each(out);
    Ok(())
}
