// Packed messages below t: encoded and encrypted, and decrypted again.
ghost use Rattle.std.specs.Prelude.{ℕ, ◌≡◌, ◌<◌, false, length, get_or};
ghost use Rattle.scheme.specs.Checks.{messages_fail};
ghost use Rattle.primus_reduce.specs.Ring.{size_of};
ghost use Rattle.codec_words.specs.Embedding.{encode_word};
ghost use Rattle.check_order.specs.Answer.{code_of};
ghost use Rattle.primus_lwe_packed.specs.Answers.{EncryptsPackedMessages, DecryptsPacked};
ghost use Rattle.lwe_errors.specs.Errors.{errors_of};

use check_order::Refusal;
use codec_words::{Moduli, PlaintextEmbedding};
use lwe_errors::LweErrorsRef;
use lwe_packed_refusals::{packed_decrypt_refusal, packed_message_refusal};
use lwe_parameters::{LweDecryptionParameters, LweParameters};
use lwe_tag::LweTag;

// encode(m) of each message in its body's place, for a call that has judged them.
// Stays beside the codec's own loop, a private step of a call that would judge again.
fn write_encodings(
    bodies: &mut [u32],
    moduli: Moduli,
    embedding: PlaintextEmbedding,
    messages: &[u32],
)
    requires { (length bodies.old ≡ length messages.now) × (messages_fail moduli.t messages.now ≡ false) }
    ensures { (i : ℕ) → i < length messages.now → get_or bodies.new i 0 ≡
        encode_word embedding (size_of moduli.modulus) moduli.t (get_or messages.now i 0) }
{
    for (i, body) in bodies.iter_mut().enumerate() {
        *body = moduli.encode_as(embedding, messages[i]);
    }
}

// n mask words, then a body for each message; no tally. Refuses by 2, 6, 7, 8, 9, 10, 11, 12, 13, 14, 15, 16.
#[tactic(auto, using(primus_lwe::proofs::Laws::moduli_least, primus_lwe::proofs::Laws::moduli_below))]
pub fn encrypt_message_packed(
    params: LweParameters,
    embedding: PlaintextEmbedding,
    secret: &[u32],
    mask: &[u32],
    errors: LweErrorsRef,
    messages: &[u32],
    out: &mut [u32],
) -> Result<LweTag, Refusal>
    ensures { EncryptsPackedMessages params embedding secret.now mask.now
        (errors_of errors.entry) messages.now out.old result out.new }
{
    packed_message_refusal(params, secret, mask, errors, messages, out.len())?;
    let moduli = Moduli {
        t: params.plaintext_modulus,
        modulus: params.modulus,
    };
    let (_, bodies) = out.split_at_mut(mask.len());
    write_encodings(bodies, moduli, embedding, messages);
    lwe_packing::write_packed(out, mask, secret, errors, moduli.ring());
    Ok(LweTag::untallied())
}

// decode of the phase of each body. Refuses by 2, 6, 7, 8, 9, 10, 11, 14.
#[tactic(auto, using(primus_lwe::proofs::Laws::moduli_least, primus_lwe::proofs::Laws::moduli_below))]
pub fn decrypt_message_packed(
    params: LweDecryptionParameters,
    secret: &[u32],
    input: &[u32],
    out: &mut [u32],
) -> Result<(), Refusal>
    ensures { DecryptsPacked params secret.now input.now out.old
        (code_of result) out.new }
{
    packed_decrypt_refusal(params, secret, input, out.len())?;
    let moduli = Moduli {
        t: params.plaintext_modulus,
        modulus: params.modulus,
    };
    lwe_packing::phases(out, input, secret, moduli.ring());
    moduli.decode_each(out);
    Ok(())
}
