// Checks that several calls share, each exact for every input; check_order has the first number that applies.
#![tactic(auto)]

ghost use Rattle.std.specs.Prelude.{◌≡◌, ◌||◌};
ghost use Rattle.scheme.specs.Checks.{modulus_fails, large_fails, plaintext_fails, small_fails, error_limit_fails, word_fails};
ghost use Rattle.scheme.specs.Checks.{words_fail, magnitudes_fail, signed_fail, errors_fail, coefficients_fail, message_fails, messages_fail};
ghost use Rattle.primus_reduce.specs.Ring.{meant, size_of};

pub use check_lengths::{
    batch_count, batch_differs, ciphertext_differs, ciphertexts_differ, counts_differ,
    length_differs, lengths_differ, masks_or_errors_differ, runs_differ,
};
use primus_reduce::Modulus;

// 2: an explicit modulus is below 4.
pub fn modulus_refused(q: Modulus) -> bool
    ensures { result ≡ modulus_fails (meant q) }
{
    match q {
        Modulus::Native => false,
        Modulus::Explicit(q) => q < 4,
    }
}

// 26: an explicit modulus is above 65,536 and no power of two.
pub fn large_refused(q: Modulus) -> bool
    ensures { result ≡ large_fails 32 (meant q) }
{
    match q {
        Modulus::Native => false,
        Modulus::Explicit(n) => 65_536 < n && !q.is_power_of_two(),
    }
}

// 7: the plaintext modulus t is below 2.
pub fn plaintext_refused(t: u32) -> bool
    ensures { result ≡ plaintext_fails t }
{
    t < 2
}

// 8: an explicit modulus is at most t.
pub fn small_refused(t: u32, q: Modulus) -> bool
    ensures { result ≡ small_fails t (meant q) }
{
    match q {
        Modulus::Native => false,
        Modulus::Explicit(q) => q <= t,
    }
}

// 13: E is above 1,048,576, or not below q.
pub fn error_limit_refused(error_limit: u32, q: Modulus) -> bool
    ensures { result ≡ error_limit_fails (size_of q) error_limit }
{
    let q = q.size();
    1_048_576 < error_limit || q <= error_limit as u64
}

// 14, one word.
pub fn word_refused(q: Modulus, x: u32) -> bool
    ensures { result ≡ word_fails (size_of q) x }
{
    q.size() <= x as u64
}

// No early exit: the loop without one runs four words at a time.
// Stays: a loop beside `any_outside`: 2,048 words take 0.3 µs in 32 bits, as in the release before, and 0.9 µs in one generic loop of 64.
#[tactic(auto, using(crate::proofs::Laws::words_any))]
fn any_refused(s: &[u32], q: u32) -> bool
    ensures { result ≡ words_fail q s.now }
{
    let mut any = false;
    for x in s {
        any |= q <= *x;
    }
    any
}

// 14, a run of words. Every word is below the native modulus.
#[tactic(auto, using(crate::proofs::Laws::words_below))]
pub fn words_refused(q: Modulus, s: &[u32]) -> bool
    ensures { result ≡ words_fail (size_of q) s.now }
{
    match q {
        Modulus::Native => false,
        Modulus::Explicit(q) => any_refused(s, q),
    }
}

// 14, two runs.
pub fn both_refused(q: Modulus, s: &[u32], t: &[u32]) -> bool
    ensures { result ≡ (words_fail (size_of q) t.now || words_fail (size_of q) s.now) }
{
    words_refused(q, t) | words_refused(q, s)
}

// Whether some |c| is not below the limit; no early exit, as for words.
fn any_outside(s: &[i32], limit: u64) -> bool
    ensures { result ≡ magnitudes_fail limit s.now }
{
    let mut any = false;
    for c in s {
        any |= limit <= c.unsigned_abs() as u64;
    }
    any
}

// 14, a run of signed numbers: |c| ≥ q.
pub fn signed_refused(q: Modulus, s: &[i32]) -> bool
    ensures { result ≡ signed_fail (size_of q) s.now }
{
    any_outside(s, q.size())
}

// 15, errors: outside ±E.
pub fn errors_refused(error_limit: u32, s: &[i32]) -> bool
    ensures { result ≡ errors_fail error_limit s.now }
{
    any_outside(s, error_limit as u64 + 1)
}

// 15, coefficients: none of −1, 0, 1.
pub fn coefficients_refused(s: &[i32]) -> bool
    ensures { result ≡ coefficients_fail s.now }
{
    any_outside(s, 2)
}

// 16, one message.
pub fn message_refused(t: u32, m: u32) -> bool
    ensures { result ≡ message_fails t m }
{
    t <= m
}

// 16, a run of messages: the scan for words, with t as the limit.
pub fn messages_refused(t: u32, s: &[u32]) -> bool
    ensures { result ≡ messages_fail t s.now }
{
    any_refused(s, t)
}
