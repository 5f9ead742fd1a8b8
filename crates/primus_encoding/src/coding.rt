// One body for all calls of the codec: what is done with a word is a value, and the checks follow from it.
ghost use Rattle.std.specs.Prelude.{◌≡◌, false, length, IfOk};
ghost use Rattle.scheme.specs.Checks.{refusal};
ghost use Rattle.primus_reduce.specs.Ring.{size_of};
ghost use Rattle.check_order.specs.Answer.{code_of};
ghost use Rattle.primus_encoding.specs.Coding.{message_fault, coded_word, coded_answer};
ghost use Rattle.primus_encoding.specs.Coding.{slice_rows, words_fault, messages_fault, coded, CodesSlice};

use crate::{PlaintextEmbedding, RoundedCodec};
use check_order::{Refusal, Values};
use codec_words::Moduli;
use primus_reduce::Modulus;

// Stays: an enum, no closures: what a kind judges, what it makes of a word and what it ensures are three matches over one value.
#[derive(Clone, Copy)]
pub(crate) enum Coding {
    Encode(PlaintextEmbedding),
    Decode,
    // An encoding is added to what the output holds.
    AddEncoding(PlaintextEmbedding),
}

// The word for x, where the output holds `held`.
// Stays: coding and moduli alone, here and below: a call has the one before it judges and the other after, and a third struct is no plainer.
#[tactic(auto, using(crate::proofs::Laws::add_is))]
fn code_word(coding: Coding, moduli: Moduli, x: u32, held: u32) -> u32
    requires { message_fault coding moduli.t x ≡ false }
    ensures { result ≡ coded_word coding moduli.t moduli.modulus x held }
{
    match coding {
        Coding::Encode(embedding) => moduli.encode_as(embedding, x),
        Coding::Decode => moduli.decode(x),
        Coding::AddEncoding(embedding) => {
            moduli
                .modulus
                .reduce_add(held, moduli.encode_as(embedding, x))
        }
    }
}

// 14.
fn words_refused(coding: Coding, modulus: Modulus, input: &[u32], held: &[u32]) -> bool
    ensures { result ≡ words_fault coding modulus input.now held.now }
{
    match coding {
        Coding::Encode(_) => false,
        Coding::Decode => checks::words_refused(modulus, input),
        Coding::AddEncoding(_) => checks::words_refused(modulus, held),
    }
}

// 16.
fn messages_refused(coding: Coding, t: u32, input: &[u32]) -> bool
    ensures { result ≡ messages_fault coding t input.now }
{
    match coding {
        Coding::Encode(_) | Coding::AddEncoding(_) => checks::messages_refused(t, input),
        Coding::Decode => false,
    }
}

#[tactic(auto, using(scheme::proofs::InPlace::filled_end, crate::proofs::Laws::message_at))]
fn write_words(coding: Coding, moduli: Moduli, input: &[u32], output: &mut [u32])
    requires { (messages_fault coding moduli.t input.now ≡ false) × (length output.old ≡ length input.now) }
    ensures { output.new ≡ coded coding moduli.t moduli.modulus input.now output.old }
{
    for (i, word) in output.iter_mut().enumerate() {
        *word = code_word(coding, moduli, input[i], *word);
    }
}

// Stays: no call of `write_words`: in place the input is the output, which no two slices can share.
#[tactic(auto, using(scheme::proofs::InPlace::filled_end))]
fn replace_words(coding: Coding, moduli: Moduli, values: &mut [u32])
    requires { messages_fault coding moduli.t values.old ≡ false }
    ensures { values.new ≡ coded coding moduli.t moduli.modulus values.old values.old }
{
    for word in values.iter_mut() {
        *word = code_word(coding, moduli, *word, *word);
    }
}

impl RoundedCodec {
    // The moduli of a call that is not refused.
    #[tactic(auto, using(crate::proofs::Laws::sized_first))]
    fn judge_slice(self, coding: Coding, input: &[u32], held: &[u32]) -> Result<Moduli, Refusal>
        ensures first { code_of result ≡ refusal (slice_rows coding self.plaintext_modulus
            self.ciphertext_modulus input.now held.now) }
        ensures moduli { IfOk result (λ m. (m.t ≡ self.plaintext_modulus) × (m.modulus ≡ self.ciphertext_modulus)) }
    {
        let t = self.plaintext_modulus;
        let modulus = self.ciphertext_modulus;
        let differs = checks::length_differs(held.len(), input.len());
        let moduli = Moduli::judge(t, modulus, differs)?;
        let mut v = Values::default();
        v.word = words_refused(coding, modulus, input, held);
        v.message = messages_refused(coding, t, input);
        v.judge()?;
        Ok(moduli)
    }

    // Each word of the input, in its place. Inlined, so that each call has a loop of its own kind and embedding: else one word takes
    // three times as long.
    #[inline(always)]
    #[tactic(auto, using(check_order::proofs::Answers::unwritten))]
    pub(crate) fn code_slice_to(
        self,
        coding: Coding,
        input: &[u32],
        output: &mut [u32],
    ) -> Result<(), Refusal>
        ensures { CodesSlice coding self.plaintext_modulus self.ciphertext_modulus
            input.now output.old (code_of result) output.new }
    {
        let moduli = self.judge_slice(coding, input, output)?;
        write_words(coding, moduli, input, output);
        Ok(())
    }

    // In place: the input is what the output holds. Inlined as `code_slice_to` is.
    #[inline(always)]
    #[tactic(auto, using(check_order::proofs::Answers::unwritten))]
    pub(crate) fn code_slice_assign(self, coding: Coding, values: &mut [u32]) -> Result<(), Refusal>
        ensures { CodesSlice coding self.plaintext_modulus self.ciphertext_modulus
            values.old values.old (code_of result) values.new }
    {
        let moduli = self.judge_slice(coding, values, values)?;
        replace_words(coding, moduli, values);
        Ok(())
    }

    // One word, judged as a slice of one, and made with no loop.
    #[tactic(auto, using(crate::proofs::Laws::judged_refused, crate::proofs::Laws::judged_given))]
    pub(crate) fn code_value(self, coding: Coding, x: u32, held: u32) -> Result<u32, Refusal>
        ensures { result ≡ coded_answer coding self.plaintext_modulus self.ciphertext_modulus x held }
    {
        let moduli = self.judge_slice(coding, &[x], &[held])?;
        Ok(code_word(coding, moduli, x, held))
    }
}
