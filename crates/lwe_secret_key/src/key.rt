// A lent secret key of either form. Each function here is exact for every input.
ghost use Rattle.std.specs.Prelude.{◌≡◌, ◌||◌, length};
ghost use Rattle.scheme.specs.Lwe.{secret_of, key_length, inner};
ghost use Rattle.scheme.specs.Checks.{length_fails, words_fail, key_fails};
ghost use Rattle.primus_reduce.specs.Ring.{size_of, modulo};
ghost use Rattle.lwe_secret_key.specs.Key.{key_of};

use primus_lattice::LweDimension;
use primus_reduce::{Factor, Modulus};

// Words below q, or signed numbers c, each for c modulo q.
#[derive(Clone, Copy)]
pub enum LweSecretKeyRef<'a> {
    Encoded(&'a [u32]),
    Signed(&'a [i32]),
}

impl<'a> LweSecretKeyRef<'a> {
    fn len(self) -> usize
        ensures { result ≡ key_length (key_of self.entry) }
    {
        match self {
            LweSecretKeyRef::Encoded(words) => words.len(),
            LweSecretKeyRef::Signed(numbers) => numbers.len(),
        }
    }

    // 9: the key does not have n numbers.
    pub fn differs(self, dimension: LweDimension) -> bool
        ensures { result ≡ length_fails (key_length (key_of self.entry)) dimension.0 }
    {
        dimension.differs(self.len())
    }

    // 14: a word is not below q, or a signed number has |c| ≥ q.
    pub fn refused(self, modulus: Modulus) -> bool
        ensures { result ≡ key_fails (size_of modulus) (key_of self.entry) }
    {
        match self {
            LweSecretKeyRef::Encoded(words) => checks::words_refused(modulus, words),
            LweSecretKeyRef::Signed(numbers) => checks::signed_refused(modulus, numbers),
        }
    }

    // 14, the key and a run of words.
    pub fn refused_with(self, modulus: Modulus, run: &[u32]) -> bool
        ensures { result ≡ (words_fail (size_of modulus) run.now || key_fails (size_of modulus) (key_of self.entry)) }
    {
        checks::words_refused(modulus, run) | self.refused(modulus)
    }

    // ⟨a, s⟩ over the places of a; what the key lacks counts as 0. Inlined, and so is `phase`: else rows of few words take a quarter more time.
    #[inline(always)]
    #[tactic(auto, unfolding(scheme::specs::Lwe::inner, primus_reduce::specs::Dot::dot, primus_reduce::specs::Dot::dot_signed))]
    pub(crate) fn product(self, mask: &[u32], modulus: Modulus) -> u32
        ensures { result ≡ modulo (size_of modulus) (inner (length mask.now) mask.now (secret_of (key_of self.entry))) }
    {
        match self {
            LweSecretKeyRef::Encoded(words) => modulus.reduce_dot_product(mask, words),
            LweSecretKeyRef::Signed(numbers) => modulus.reduce_dot_product(mask, numbers),
        }
    }

    // s_i as a residue, 0 past the end.
    pub fn residue(self, i: usize, modulus: Modulus) -> u32
        ensures { result ≡ modulo (size_of modulus) (secret_of (key_of self.entry) i) }
    {
        match self {
            LweSecretKeyRef::Encoded(words) => Factor::residue_at(words, i, modulus),
            LweSecretKeyRef::Signed(numbers) => Factor::residue_at(numbers, i, modulus),
        }
    }
}
