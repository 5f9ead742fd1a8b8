// Ciphertexts of one message: n mask words, then the body.
ghost use Rattle.std.specs.Prelude.{◌≡◌, ◌+◌, ◌%◌, ◌^◌, ◌<◌, false, length};
ghost use Rattle.scheme.specs.Lwe.{add_words};
ghost use Rattle.scheme.specs.Checks.{refusal, words_fail};
ghost use Rattle.primus_reduce.specs.Ring.{size_of};
ghost use Rattle.check_order.specs.Answer.{code_of};
ghost use Rattle.primus_lattice.specs.Answers.{add_rows, Adds};

use crate::dimension::LweDimension;
use check_order::{Refusal, Sizes, Values};
use lwe_tag::LweTag;
use primus_reduce::Modulus;

// a + b modulo q, of words below q.
// Stays: no `Divisor::add`, which takes any words and tests them first: these are below q, as judged, and so the loop vectorizes.
fn add_below(a: u32, b: u32, q: u32) -> u32
    requires { (a < q) × (b < q) }
    ensures { result ≡ (a + b) % q }
{
    let room = q - b;
    if a < room { a + b } else { a - room }
}

// a + b modulo q.
fn add_word(a: u32, b: u32, modulus: Modulus) -> u32
    requires { (a < size_of modulus) × (b < size_of modulus) }
    ensures { result ≡ (a + b) % size_of modulus }
{
    match modulus {
        Modulus::Native => a.wrapping_add(b),
        Modulus::Explicit(q) => add_below(a, b, q),
    }
}

// x + y modulo q. Nothing is judged in the loop, and LLVM lifts the match on q out of it, so that it vectorizes.
#[tactic(auto, using(scheme::proofs::InPlace::filled_start, scheme::proofs::InPlace::filled_end, scheme::proofs::InPlace::length_zip))]
fn add_words(x: &mut [u32], y: &[u32], modulus: Modulus)
    requires { (length x.old ≡ length y.now)
        × (words_fail (size_of modulus) x.old ≡ false) × (words_fail (size_of modulus) y.now ≡ false) }
    ensures { x.new ≡ add_words (size_of modulus) x.old y.now }
{
    for (i, word) in x.iter_mut().enumerate() {
        *word = add_word(*word, y[i], modulus);
    }
}

fn add_refusal(
    modulus: Modulus,
    dimension: LweDimension,
    x: &[u32],
    x_tag: LweTag,
    y: &[u32],
    y_tag: LweTag,
) -> Result<(), Refusal>
    ensures { code_of result ≡ refusal (add_rows modulus dimension.0 x.now x_tag y.now y_tag) }
{
    let mut s = Sizes::default();
    s.modulus = checks::modulus_refused(modulus);
    s.dimension = dimension.refused();
    s.input = dimension.ciphertexts_differ(x.len(), y.len());
    s.judge()?;
    let mut v = Values::default();
    v.word = checks::both_refused(modulus, x, y);
    v.tally = lwe_tag::tags_refused(x_tag, y_tag);
    v.judge()
}

// x + y modulo q, word by word, in x, and the tag of the sum. Refuses by 2, 6, 10, 14, 17.
pub fn add_assign(
    modulus: Modulus,
    dimension: LweDimension,
    x: &mut [u32],
    x_tag: LweTag,
    y: &[u32],
    y_tag: LweTag,
) -> Result<LweTag, Refusal>
    ensures { Adds modulus dimension x.old x_tag y.now y_tag result x.new }
{
    add_refusal(modulus, dimension, x, x_tag, y, y_tag)?;
    add_words(x, y, modulus);
    Ok(lwe_tag::tags_sum(x_tag, y_tag))
}
