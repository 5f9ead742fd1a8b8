// Errors as a call is lent them: signed numbers, or words below q. Each function here is exact for every input.
#![tactic(auto)]

ghost use Rattle.std.specs.Prelude.{◌≡◌, map};
ghost use Rattle.scheme.specs.Numbers.{nearest};
ghost use Rattle.scheme.specs.Lwe.{error_count, error_values};
ghost use Rattle.scheme.specs.Checks.{magnitudes_fail, error_words_fail, errors_fail};
ghost use Rattle.primus_reduce.specs.Ring.{size_of, modulo};
ghost use Rattle.lwe_errors.specs.Errors.{errors_of, errors_in};

use primus_reduce::{Factor, Modulus};

// A word w counts as w where 2w ≤ q, else as w − q.
// Stays: a type beside `LweSecretKeyRef`, whose words stand for themselves and whose signed numbers are judged by q: one type would lend a key for errors.
#[derive(Clone, Copy)]
pub enum LweErrorsRef<'a> {
    Encoded(&'a [u32]),
    Signed(&'a [i32]),
}

// What a word counts as.
#[tactic(auto, unfolding(scheme::specs::Numbers::nearest))]
fn signed_value(word: u32, modulus: Modulus) -> i64
    ensures { result ≡ nearest (size_of modulus) word }
{
    let q = modulus.size();
    let w = word as u64;
    if 2 * w <= q {
        w as i64
    } else {
        w as i64 - q as i64
    }
}

// Whether what some word counts as has a magnitude that is not below the limit; no early exit, as in checks.
// Stays: a loop beside the one of checks, whose elements are numbers already.
fn any_outside(words: &[u32], limit: u64, modulus: Modulus) -> bool
    ensures { result ≡ magnitudes_fail limit (map (nearest (size_of modulus)) words.now) }
{
    let mut any = false;
    for word in words {
        any |= limit <= signed_value(*word, modulus).unsigned_abs();
    }
    any
}

impl<'a> LweErrorsRef<'a> {
    // How many there are.
    pub fn count(self) -> usize
        ensures { result ≡ error_count (errors_of self.entry) }
    {
        match self {
            LweErrorsRef::Encoded(words) => words.len(),
            LweErrorsRef::Signed(numbers) => numbers.len(),
        }
    }

    // 14: a word is not below q.
    pub fn words_refused(self, modulus: Modulus) -> bool
        ensures { result ≡ error_words_fail (size_of modulus) (errors_of self.entry) }
    {
        match self {
            LweErrorsRef::Encoded(words) => checks::words_refused(modulus, words),
            LweErrorsRef::Signed(_) => false,
        }
    }

    // 15: an error is outside ±E.
    pub fn outside(self, error_limit: u32, modulus: Modulus) -> bool
        ensures { result ≡ errors_fail error_limit (error_values (size_of modulus) (errors_of self.entry)) }
    {
        match self {
            LweErrorsRef::Encoded(words) => any_outside(words, error_limit as u64 + 1, modulus),
            LweErrorsRef::Signed(numbers) => checks::errors_refused(error_limit, numbers),
        }
    }

    // Error i as a residue, 0 past the end.
    pub fn residue(self, i: usize, modulus: Modulus) -> u32
        ensures { result ≡ modulo (size_of modulus) (errors_in modulus self.entry i) }
    {
        match self {
            LweErrorsRef::Encoded(words) => Factor::residue_at(words, i, modulus),
            LweErrorsRef::Signed(numbers) => Factor::residue_at(numbers, i, modulus),
        }
    }
}
