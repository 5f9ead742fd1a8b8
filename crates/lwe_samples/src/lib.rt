// Packed ciphertexts: n shared mask words, then at most n bodies.
// Body i uses the mask rotated right by i, its first i words negated.
// Stays: each lent buffer is a parameter of its own, as in the Rust and in C; what refuses a call takes them as they come. So are q and n:
// for the struct of them this crate would be built on lwe_parameters.
#![tactic(auto)]

ghost use Rattle.std.specs.Prelude.{◌≡◌, ◌||◌, ◌+◌, ◌-◌, ◌<◌, ◌≤◌, length, get_or};
ghost use Rattle.scheme.specs.Lwe.{extracted};
ghost use Rattle.scheme.specs.Checks.{packed_fails, refusal};
ghost use Rattle.primus_reduce.specs.Ring.{size_of};
ghost use Rattle.check_order.specs.Answer.{code_of};
ghost use Rattle.lwe_samples.specs.Answers.{body_fails, extract_rows, Extracts};

use check_order::{Refusal, Sizes, Values};
use lwe_tag::LweTag;
use lwe_words::copy_words;
use primus_lattice::LweDimension;
use primus_reduce::{Modulus, Ring};

// 10: fewer than n words, or more than n bodies. No sum: it could overflow.
pub fn packed_refused(len: usize, dimension: usize) -> bool
    ensures { result ≡ packed_fails len dimension }
{
    len < dimension || dimension < len - dimension
}

// 10: there is no body `index`. No sum: it could overflow.
fn body_missing(len: usize, dimension: usize, index: usize) -> bool
    ensures { result ≡ body_fails len dimension index }
{
    len < dimension || len - dimension <= index
}

// 10, both.
fn sample_refused(dimension: LweDimension, len: usize, index: usize) -> bool
    ensures { result ≡ (body_fails len dimension.0 index || packed_fails len dimension.0) }
{
    let n = dimension.get();
    body_missing(len, n, index) | packed_refused(len, n)
}

fn extract_refusal(
    modulus: Modulus,
    dimension: LweDimension,
    input: &[u32],
    tag: LweTag,
    index: usize,
    room: usize,
) -> Result<(), Refusal>
    ensures { code_of result ≡ refusal (extract_rows modulus dimension.0 input.now tag index room) }
{
    let mut s = Sizes::default();
    s.modulus = checks::modulus_refused(modulus);
    s.dimension = dimension.refused();
    s.input = sample_refused(dimension, input.len(), index);
    s.output = dimension.ciphertext_differs(room);
    s.judge()?;
    let mut v = Values::default();
    v.word = checks::words_refused(modulus, input);
    v.tally = tag.refused();
    v.judge()
}

// The sample of body `index`: the mask turned by `index` places, negated where it wraps, then the body. A sample of n + 1 words.
// Stays: index beside a slice: it is a place, and no length of it.
fn write_extracted(out: &mut [u32], input: &[u32], index: usize, ring: Ring)
    requires { let n = length out.old - 1 in (index < n) × (n + index < length input.now) }
    ensures { out.new ≡ extracted (size_of ring.modulus) (length out.old - 1) input.now index }
{
    let n = out.len() - 1;
    let (mask, bodies) = input.split_at(n);
    let (plain, wrapped) = mask.split_at(n - index);
    let (start, rest) = out.split_at_mut(index);
    copy_words(&mut rest[..n - index], plain);
    rest[n - index] = bodies[index];
    for (k, word) in start.iter_mut().enumerate() {
        *word = ring.modulus.reduce_neg(wrapped[k]);
    }
}

// The sample of body `index`, as a ciphertext of one message, and its tag: the c of the packed one, and no tally. Refuses by 2, 6, 10, 11,
// 14, 17.
pub fn extract_lwe_at(
    modulus: Modulus,
    dimension: LweDimension,
    input: &[u32],
    tag: LweTag,
    index: usize,
    out: &mut [u32],
) -> Result<LweTag, Refusal>
    ensures { Extracts modulus dimension input.now tag index out.old result out.new }
{
    extract_refusal(modulus, dimension, input, tag, index, out.len())?;
    let ring = Ring { modulus };
    write_extracted(out, input, index, ring);
    Ok(tag.without_tally())
}
