// The innermost steps, for calls that have judged what they are lent: one encryption, one row of a run, one phase.
ghost use Rattle.std.specs.Prelude.{◌≡◌, [], ◌∷◌, ◌++◌, ◌+◌, ◌-◌, ◌*◌, ◌≤◌, pos, ◌+ℤ◌, length, take, drop};
ghost use Rattle.scheme.specs.Lwe.{secret_of, encrypted, phase_of};
ghost use Rattle.scheme.specs.Numbers.{residue};
ghost use Rattle.primus_reduce.specs.Ring.{size_of};
ghost use Rattle.lwe_secret_key.specs.Key.{key_of};
ghost use Rattle.lwe_secret_key.specs.Runs.{replaced};
ghost use Rattle.lwe_errors.specs.Errors.{errors_in};

use crate::key::LweSecretKeyRef;
use lwe_errors::LweErrorsRef;
use lwe_words::copy_words;
use primus_reduce::{Factor, Ring};

fn write(out: &mut [u32], mask: &[u32], body: u32)
    requires { length out.old ≡ length mask.now + 1 }
    ensures { out.new ≡ mask.now ++ (body ∷ []) }
{
    let n = mask.len();
    copy_words(&mut out[..n], mask);
    out[n] = body;
}

// sum + e + p, where the words sum and e stand for ⟨a, s⟩ and the error modulo q.
#[tactic(auto, using(crate::proofs::Laws::body_is))]
pub fn body(sum: u32, error: u32, plaintext: u32, ring: Ring) -> u32
    ensures { result ≡ residue (pos sum +ℤ pos error +ℤ pos plaintext) (size_of ring.modulus) }
{
    let modulus = ring.modulus;
    let noisy = modulus.reduce_add(sum, error);
    modulus.reduce_add(noisy, plaintext)
}

// The mask, and the body ⟨a, s⟩ + e + p with lent error i. A function, no method: a user may call nothing that has a `requires`.
// Stays: errors and i, here and for a row: a residue handed in would be made by each caller, with the law of its residue.
#[tactic(auto, using(crate::proofs::Laws::encrypted_is))]
pub fn encrypt_to(
    key: LweSecretKeyRef,
    out: &mut [u32],
    mask: &[u32],
    errors: LweErrorsRef,
    i: usize,
    plaintext: u32,
    ring: Ring,
)
    requires { length out.old ≡ length mask.now + 1 }
    ensures { out.new ≡ encrypted (size_of ring.modulus) (length mask.now) mask.now
        (secret_of (key_of key.entry)) (errors_in ring.modulus errors.entry i) (pos plaintext) }
{
    let sum = key.product(mask, ring.modulus);
    let error = errors.residue(i, ring.modulus);
    write(out, mask, body(sum, error, plaintext, ring));
}

// Row i in its place, with mask i and error i.
// Stays: n beside the masks, whose length is that of all rows; a key's length is no n: any key is taken, and counts as 0 past its end.
pub fn encrypt_row(
    key: LweSecretKeyRef,
    out: &mut [u32],
    masks: &[u32],
    n: usize,
    errors: LweErrorsRef,
    i: usize,
    plaintext: u32,
    ring: Ring,
)
    requires { (i * n + n ≤ length masks.now) × (i * (n + 1) + (n + 1) ≤ length out.old) }
    ensures { out.new ≡ replaced out.old (i * (n + 1)) (n + 1)
        (encrypted (size_of ring.modulus) n (take n (drop (i * n) masks.now))
        (secret_of (key_of key.entry)) (errors_in ring.modulus errors.entry i) (pos plaintext)) }
{
    let from = i * n;
    let at = i * (n + 1);
    let mask = &masks[from..from + n];
    let row = &mut out[at..at + (n + 1)];
    encrypt_to(key, row, mask, errors, i, plaintext, ring);
}

impl<'a> LweSecretKeyRef<'a> {
    // b − ⟨a, s⟩, where the last word is b.
    #[inline(always)]
    #[tactic(auto, using(crate::proofs::Laws::phase_is, crate::proofs::Laws::phase_none))]
    pub fn phase(self, ciphertext: &[u32], ring: Ring) -> u32
        ensures { result ≡ phase_of (size_of ring.modulus) (length ciphertext.now - 1) ciphertext.now
            (secret_of (key_of self.entry)) }
    {
        match ciphertext.split_last() {
            None => 0,
            Some((last, mask)) => {
                let sum = self.product(mask, ring.modulus);
                ring.modulus.reduce_sub(*last, sum)
            }
        }
    }
}
