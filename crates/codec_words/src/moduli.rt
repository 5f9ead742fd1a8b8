// The plaintext modulus t and the ciphertext modulus q of a codec, and what is made of a word under them.
ghost use Rattle.std.specs.Prelude.{◌≡◌, ◌<◌, ◌≤◌};
ghost use Rattle.primus_reduce.specs.Ring.{size_of};

use crate::embedding::PlaintextEmbedding;
use crate::switch::switch_value;
use check_order::{Refusal, Sizes};
use primus_reduce::{Modulus, Ring};

// t and q that 2, 7 and 8 let through.
#[derive(Clone, Copy)]
pub struct Moduli {
    pub t: u32,
    pub modulus: Modulus,
    ghost least: { 2 ≤ t },
    ghost below: { t < size_of modulus },
}

impl Moduli {
    ghost use Rattle.std.specs.Prelude.{IfOk, map};
    ghost use Rattle.scheme.specs.Codec.{encode, centered_start, encode_centered, decode};
    ghost use Rattle.scheme.proofs.Order.{Sized};
    ghost use Rattle.check_order.specs.Answer.{code_of};
    ghost use Rattle.codec_words.specs.Embedding.{encode_word};
    ghost use Rattle.codec_words.specs.Words.{size_rows};

    // The two, or the first of 2, 7, 8 and 11; 11 applies where `differs`.
    pub fn judge(t: u32, modulus: Modulus, differs: bool) -> Result<Moduli, Refusal>
        ensures first { Sized (size_rows t modulus differs) (code_of result) }
        ensures moduli { IfOk result (λ m. (m.t ≡ t) × (m.modulus ≡ modulus)) }
    {
        let mut s = Sizes::default();
        s.modulus = checks::modulus_refused(modulus);
        s.plaintext = checks::plaintext_refused(t);
        s.small = checks::small_refused(t, modulus);
        s.output = differs;
        s.judge()?;
        Ok(Moduli { t, modulus })
    }

    // q, which is above t and so not 0.
    pub fn ring(self) -> Ring
        ensures { result.modulus ≡ self.modulus }
    {
        Ring {
            modulus: self.modulus,
        }
    }

    // ⌈t/2⌉, the first message that Centered lifts to a negative number.
    fn centered_negative_start(self) -> u32
        ensures { result ≡ centered_start self.t }
    {
        self.t / 2 + self.t % 2
    }

    // encode(m)
    #[tactic(auto, using(scheme::proofs::Modulus::size_most, crate::proofs::Laws::encode_fits))]
    fn encode(self, message: u32) -> u32
        requires { message < self.t }
        ensures { result ≡ encode (size_of self.modulus) self.t message }
    {
        switch_value(self.t as u64, self.modulus.size(), message) as u32
    }

    // Centered: q − encode(t − m) from ⌈t/2⌉ on. One encoding serves both, so that no word waits for a guess of which it is.
    #[tactic(auto, using(scheme::proofs::Modulus::size_most, crate::proofs::Laws::encode_most, crate::proofs::Laws::high_fits, crate::proofs::Laws::centered_from, crate::proofs::Laws::centered_until))]
    fn encode_centered(self, message: u32) -> u32
        requires { message < self.t }
        ensures { result ≡ encode_centered (size_of self.modulus) self.t message }
    {
        let negative = self.centered_negative_start() <= message;
        let lifted = if negative { self.t - message } else { message };
        let word = self.encode(lifted);
        if negative {
            (self.modulus.size() - word as u64) as u32
        } else {
            word
        }
    }

    // encode(m), lifted by an embedding. Stays: m below t is asked of each step: a type would be made of each lent word, and taken apart.
    pub fn encode_as(self, embedding: PlaintextEmbedding, message: u32) -> u32
        requires { message < self.t }
        ensures { result ≡ encode_word embedding (size_of self.modulus) self.t message }
    {
        match embedding {
            PlaintextEmbedding::Unsigned => self.encode(message),
            PlaintextEmbedding::Centered => self.encode_centered(message),
        }
    }

    // decode(p) = ⌊(2pt + q) / 2q⌋ mod t
    #[tactic(auto, using(scheme::proofs::Modulus::size_most, crate::proofs::Laws::reduced))]
    pub fn decode(self, value: u32) -> u32
        ensures { result ≡ decode (size_of self.modulus) self.t value }
    {
        Modulus::Explicit(self.t).reduce(switch_value(self.modulus.size(), self.t as u64, value))
    }

    // decode(p) of each word, in its place. Stays beside the loop of primus_encoding, which is over what a kind of coding makes.
    #[tactic(auto, using(scheme::proofs::InPlace::filled_start, scheme::proofs::InPlace::filled_end, crate::proofs::Laws::mapped_length))]
    pub fn decode_each(self, words: &mut [u32])
        ensures { words.new ≡ map (decode (size_of self.modulus) self.t) words.old }
    {
        for word in words.iter_mut() {
            *word = self.decode(*word);
        }
    }
}
