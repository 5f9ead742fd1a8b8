// The innermost steps of packed encryption and phases. Body i uses the mask rotated right by i, its first i words negated.
ghost use Rattle.std.specs.Prelude.{◌≡◌, ◌+◌, ◌-◌, ◌<◌, ◌≤◌, pos, ◌+ℤ◌, ◌-ℤ◌, length, drop};
ghost use Rattle.scheme.specs.Numbers.{residue, tabulate};
ghost use Rattle.scheme.specs.Lwe.{words, packed, packed_phase};
ghost use Rattle.primus_reduce.specs.Ring.{size_of, modulo};
ghost use Rattle.lwe_errors.specs.Errors.{errors_in};

use lwe_errors::LweErrorsRef;
use lwe_secret_key::body;
use lwe_words::copy_words;
use primus_reduce::{Factor, Ring};

// A mask and a key of as many words.
#[derive(Clone, Copy)]
struct Rotation<'a> {
    mask: &'a [u32],
    secret: &'a [u32],
    ring: Ring,
    ghost same: { length secret.now ≡ length mask.now },
}

impl<'a> Rotation<'a> {
    ghost use Rattle.lwe_packing.specs.Rotated.{rotated_by};

    // Σ over j < n−i of a_j·s_(j+i), minus Σ over j ≥ n−i of a_j·s_(j−n+i). Inlined, and so is `body`: else bodies of few words take 1.2 to
    // 1.7 times as long.
    #[inline(always)]
    #[tactic(auto, using(crate::proofs::Laws::rotated_is))]
    fn product(self, i: usize) -> u32
        requires { i < length self.mask.now }
        ensures { result ≡ modulo (size_of self.entry.ring.modulus) (rotated_by self.entry i) }
    {
        let (plain, wrapped) = self.mask.split_at(self.mask.len() - i);
        let (start, rest) = self.secret.split_at(i);
        let modulus = self.ring.modulus;
        let prefix = modulus.reduce_dot_product(plain, rest);
        let suffix = modulus.reduce_dot_product(wrapped, start);
        modulus.reduce_sub(prefix, suffix)
    }

    // Body i less its mask product. Stays: i below n is asked of three steps: a struct of an index and its mask would be made for each i.
    #[tactic(auto, using(crate::proofs::Laws::phase_is))]
    fn phase(self, body: u32, i: usize) -> u32
        requires { i < length self.mask.now }
        ensures { result ≡ residue (pos body -ℤ rotated_by self.entry i) (size_of self.entry.ring.modulus) }
    {
        let product = self.product(i);
        self.ring.modulus.reduce_sub(body, product)
    }

    // Body i: its mask product plus error i and the plaintext. Stays: errors and i, as in `encrypt_to` of lwe_secret_key.
    #[inline(always)]
    #[tactic(auto, using(crate::proofs::Laws::body_is))]
    fn body(self, errors: LweErrorsRef, i: usize, plaintext: u32) -> u32
        requires { i < length self.mask.now }
        ensures { let m = self.entry.ring.modulus in
            result ≡ residue (rotated_by self.entry i +ℤ errors_in m errors.entry i +ℤ pos plaintext) (size_of m) }
    {
        let product = self.product(i);
        let error = errors.residue(i, self.ring.modulus);
        body(product, error, plaintext, self.ring)
    }
}

// The phase of each body. The input has as many mask words as the key has.
#[tactic(auto, using(scheme::proofs::Lists::is_tabulate))]
pub fn phases(out: &mut [u32], input: &[u32], secret: &[u32], ring: Ring)
    requires { (length out.old ≤ length secret.now)
        × (length input.now ≡ length secret.now + length out.old) }
    ensures { out.new ≡ tabulate (length out.old)
        (packed_phase (size_of ring.modulus) (length secret.now) input.now (words secret.now)) }
{
    let (mask, bodies) = input.split_at(secret.len());
    let rotation = Rotation { mask, secret, ring };
    for (i, x) in out.iter_mut().enumerate() {
        *x = rotation.phase(bodies[i], i);
    }
}

// A mask, and then a body for each plaintext: each word is written once.
// Stays beside `write_packed`, whose bodies hold their plaintexts: messages are encoded there, and these are lent.
#[tactic(auto, using(scheme::proofs::Lists::is_tabulate), unfolding(scheme::specs::Lwe::packed))]
pub fn write_plaintexts(
    out: &mut [u32],
    mask: &[u32],
    secret: &[u32],
    errors: LweErrorsRef,
    plaintexts: &[u32],
    ring: Ring,
)
    requires { let n = length mask.now in (length secret.now ≡ n) × (length plaintexts.now ≤ n)
        × (length out.old ≡ n + length plaintexts.now) }
    ensures { let n = length mask.now in
        out.new ≡ packed (size_of ring.modulus) n (length plaintexts.now) mask.now
        (words secret.now) (errors_in ring.modulus errors.entry) (words plaintexts.now) }
{
    let (start, bodies) = out.split_at_mut(mask.len());
    copy_words(start, mask);
    let rotation = Rotation { mask, secret, ring };
    for (i, body) in bodies.iter_mut().enumerate() {
        *body = rotation.body(errors, i, plaintexts[i]);
    }
}

// A mask, and then the bodies, which hold their plaintexts.
#[tactic(auto, using(scheme::proofs::Lists::is_tabulate), unfolding(scheme::specs::Lwe::packed))]
pub fn write_packed(out: &mut [u32], mask: &[u32], secret: &[u32], errors: LweErrorsRef, ring: Ring)
    requires { let n = length mask.now in
        (length secret.now ≡ n) × (n ≤ length out.old) × (length out.old ≤ n + n) }
    ensures { let n = length mask.now in
        out.new ≡ packed (size_of ring.modulus) n (length out.old - n) mask.now
        (words secret.now) (errors_in ring.modulus errors.entry) (words (drop n out.old)) }
{
    let (front, bodies) = out.split_at_mut(mask.len());
    copy_words(front, mask);
    let rotation = Rotation { mask, secret, ring };
    for (i, body) in bodies.iter_mut().enumerate() {
        *body = rotation.body(errors, i, *body);
    }
}
