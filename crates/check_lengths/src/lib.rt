// Checks of lengths, each exact for every input. Stays: numbers alone: a length and what it is compared with make no struct.
#![tactic(auto)]

ghost use Rattle.std.specs.Prelude.{◌≡◌, ◌||◌, ◌+◌, ◌*◌, ◌/◌};
ghost use Rattle.scheme.specs.Checks.{length_fails, batch_fails};

// 9 to 12: `len` is not n.
pub fn length_differs(len: usize, n: usize) -> bool
    ensures { result ≡ length_fails len n }
{
    len != n
}

// 12: two lengths, each for its own n.
pub fn lengths_differ(len: usize, n: usize, second: usize, m: usize) -> bool
    ensures { result ≡ (length_fails second m || length_fails len n) }
{
    (second != m) | (len != n)
}

// 10, 11: `len` is not n mask words and a body. No sum: it could overflow.
pub fn ciphertext_differs(len: usize, n: usize) -> bool
    ensures { result ≡ length_fails len (n + 1) }
{
    if len == 0 {
        return true;
    }
    len - 1 != n
}

// 11: `len` is not a count for each number from 0 to n. Stays beside `ciphertext_differs`, which it calls: counts are no ciphertext.
pub fn counts_differ(len: usize, n: usize) -> bool
    ensures { result ≡ length_fails len (n + 1) }
{
    ciphertext_differs(len, n)
}

// 9 to 12: `len` is not `count` runs of `width`. No product: it could overflow.
#[tactic(auto, using(crate::proofs::Laws::runs_cut))]
pub fn runs_differ(len: usize, count: usize, width: usize) -> bool
    ensures { result ≡ length_fails len (count * width) }
{
    if width == 0 {
        return len != 0;
    }
    if len % width != 0 {
        return true;
    }
    len / width != count
}

// 12: there are not `count` masks of n words, or not `count` errors.
pub fn masks_or_errors_differ(masks: usize, errors: usize, count: usize, n: usize) -> bool
    ensures { result ≡ (length_fails errors count || length_fails masks (count * n)) }
{
    (errors != count) | runs_differ(masks, count, n)
}

// 10: `len` is not a multiple of n + 1. No sum where it could overflow.
#[tactic(auto, using(crate::proofs::Laws::batch_short))]
pub fn batch_differs(len: usize, n: usize) -> bool
    ensures { result ≡ batch_fails len n }
{
    if len <= n {
        return len != 0;
    }
    len % (n + 1) != 0
}

// The number of ciphertexts of n + 1 words that fit.
// Stays beside `batch_differs`: a call asks both before it judges, also of a batch that is no whole number of ciphertexts.
pub fn batch_count(len: usize, n: usize) -> usize
    ensures { result ≡ len / (n + 1) }
{
    if len <= n {
        return 0;
    }
    len / (n + 1)
}

// 11: `len` is not `count` ciphertexts of n + 1 words.
#[tactic(auto, using(crate::proofs::Laws::rows_cut, crate::proofs::Laws::rows_whole))]
pub fn ciphertexts_differ(len: usize, count: usize, n: usize) -> bool
    ensures { result ≡ length_fails len (count * (n + 1)) }
{
    if batch_differs(len, n) {
        return true;
    }
    batch_count(len, n) != count
}
