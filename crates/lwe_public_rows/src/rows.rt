// The rows of a public key, written one after the other, and added to a ciphertext or taken away from it.
ghost use Rattle.std.specs.Prelude.{◌≡◌, ◌+◌, ◌-◌, ◌*◌, ◌<◌, pos, nat_abs, length};
ghost use mathlib.Core.List.{zip_with};
ghost use Rattle.scheme.specs.Numbers.{tabulate};
ghost use Rattle.scheme.specs.Lwe.{signed, secret_of, public_key, public_encrypted};
ghost use Rattle.scheme.specs.Switch.{Below};
ghost use Rattle.primus_reduce.specs.Ring.{size_of};
ghost use Rattle.lwe_secret_key.specs.Key.{key_of};
ghost use Rattle.lwe_public_rows.specs.Public.{plus_times, start_word, Public};
ghost use Rattle.lwe_errors.specs.Errors.{errors_in};

use lwe_errors::LweErrorsRef;
use lwe_secret_key::LweSecretKeyRef;
use primus_reduce::{Factor, Ring};
use std::cmp::Ordering;

// n encryptions of 0, row i with mask i and error i. Stays: n beside the masks, as said of `encrypt_row` of lwe_secret_key.
pub fn write_zeros(
    out: &mut [u32],
    key: LweSecretKeyRef,
    masks: &[u32],
    n: usize,
    errors: LweErrorsRef,
    ring: Ring,
)
    requires { (length masks.now ≡ n * n) × (length out.old ≡ n * (n + 1)) }
    ensures { out.new ≡ public_key (size_of ring.modulus) n masks.now
        (secret_of (key_of key.entry)) (errors_in ring.modulus errors.entry) }
{
    for i in 0..n {
        lwe_secret_key::encrypt_row(key, out, masks, n, errors, i, 0, ring);
    }
}

// Before any row: the errors, and in the body the plaintext too.
#[tactic(auto, using(crate::proofs::Laws::started))]
fn start(out: &mut [u32], errors: LweErrorsRef, plaintext: u32, ring: Ring)
    requires { 0 < length out.old }
    ensures { out.new ≡ tabulate (length out.old)
        (start_word (size_of ring.modulus) (length out.old - 1) (errors_in ring.modulus errors.entry) plaintext) }
{
    for (k, x) in out.iter_mut().enumerate() {
        *x = errors.residue(k, ring.modulus);
    }
    let last = out.len() - 1;
    out[last] = ring.modulus.reduce_add(out[last], plaintext);
}

// x + r × y for a coefficient r, one of −1, 0, 1. Stays: that r is one of these, and x
// below q, is asked: a type would be made of each coefficient and of each word of the output, and taken apart here.
#[tactic(auto, using(crate::proofs::Laws::same_word))]
fn add_word(x: u32, y: u32, r: i32, ring: Ring) -> u32
    requires { (nat_abs r < 2) × (x < size_of ring.modulus) }
    ensures { result ≡ plus_times (size_of ring.modulus) r x y }
{
    match r.cmp(&0) {
        Ordering::Less => ring.modulus.reduce_sub(x, y),
        Ordering::Equal => x,
        Ordering::Greater => ring.modulus.reduce_add(x, y),
    }
}

// out + r × row, word by word. Stays: what `add_word` asks is asked here too. Inlined, so that each coefficient's loop has no test of it.
#[inline(always)]
fn add_row(out: &mut [u32], row: &[u32], r: i32, ring: Ring)
    requires { (length out.old ≡ length row.now) × (nat_abs r < 2) × Below (size_of ring.modulus) out.old }
    ensures { out.new ≡ zip_with (plus_times (size_of ring.modulus) r) out.old row.now }
{
    for (k, x) in out.iter_mut().enumerate() {
        *x = add_word(*x, row[k], r, ring);
    }
}

// out + r × row: the row is added, left out or taken away.
// Stays: an arm for each coefficient: with r tested at each word, an encryption took twice the time under an explicit power of two.
#[tactic(auto, using(crate::proofs::Laws::left_out))]
fn add_multiple(out: &mut [u32], row: &[u32], r: i32, ring: Ring)
    requires { (length out.old ≡ length row.now) × (nat_abs r < 2) × Below (size_of ring.modulus) out.old }
    ensures { out.new ≡ zip_with (plus_times (size_of ring.modulus) r) out.old row.now }
{
    match r {
        1 => add_row(out, row, 1, ring),
        -1 => add_row(out, row, -1, ring),
        _ => {}
    }
}

// The errors, p in the body, and each row by its coefficient.
pub fn write_public(
    out: &mut [u32],
    key: &[u32],
    errors: LweErrorsRef,
    coefficients: &[i32],
    plaintext: u32,
    ring: Ring,
)
    requires { Public (length coefficients.now) key.now coefficients.now (length out.old) }
    ensures { out.new ≡ public_encrypted (size_of ring.modulus) (length coefficients.now)
        key.now (errors_in ring.modulus errors.entry) (pos plaintext) (signed coefficients.now) }
{
    let n = coefficients.len();
    start(out, errors, plaintext, ring);
    for (i, r) in coefficients.iter().enumerate() {
        let at = i * (n + 1);
        add_multiple(out, &key[at..at + (n + 1)], *r, ring);
    }
}
