// Sums, marks and samples, for C. The promises are those of primus_lattice and lwe_tag.
ghost use Rattle.std.specs.Prelude.{◌≡◌, Some, None};
ghost use Rattle.primus_reduce.specs.Ring.{modulus_for};
ghost use Rattle.scheme.specs.Tally.{Absent};
ghost use Rattle.lwe_tag.specs.Answers.{meant_tally, tally_for, tag_saved, mark_answer};
ghost use Rattle.primus_lattice.specs.Answers.{given, Adds};
ghost use Rattle.lwe_samples.specs.Answers.{Extracts};
ghost use Rattle.c_answers.specs.Service.{Tells, outcome_of, mark_number};

use c_numbers::LweOutcome;
use lwe_samples::extract_lwe_at;
use primus_lattice::{LweDimension, LweTag, add_assign};
use primus_reduce::Modulus;

// x + y modulo q, word by word, in x, and the tag of the sum. Refuses by 2, 6, 10, 14, 17.
#[unsafe(no_mangle)]
pub extern "C" fn saigagalena_add(
    modulus: u32,
    n: usize,
    x: &mut [u32],
    x_tag: LweTag,
    y: &[u32],
    y_tag: LweTag,
) -> LweOutcome
    ensures { Tells outcome_of (λ z. Adds (modulus_for modulus) (given n) x.old x_tag
        y.now y_tag z x.new) result }
{
    LweOutcome::from(add_assign(
        Modulus::from(modulus),
        LweDimension::given(n),
        x,
        x_tag,
        y,
        y_tag,
    ))
}

// Body `index` of a packed ciphertext as a ciphertext of one message, and its tag: c is kept, with no tally. Refuses by 2, 6, 10, 11, 14, 17.
#[unsafe(no_mangle)]
pub extern "C" fn saigagalena_extract(
    modulus: u32,
    n: usize,
    input: &[u32],
    tag: LweTag,
    index: usize,
    out: &mut [u32],
) -> LweOutcome
    ensures { Tells outcome_of (λ x. Extracts (modulus_for modulus) (given n) input.now tag index
        out.old x out.new) result }
{
    LweOutcome::from(extract_lwe_at(
        Modulus::from(modulus),
        LweDimension::given(n),
        input,
        tag,
        index,
        out,
    ))
}

// The tag of data saved with a tally and c: any numbers; 2^64 − 1 is no tally. It is the sender's word, and the calls judge it by 17.
#[unsafe(no_mangle)]
pub extern "C" fn saigagalena_saved_tag(tally: u64, count: u32) -> LweTag
    ensures { result ≡ tag_saved (meant_tally (tally_for tally)) (Some count) }
{
    LweTag::saved(tally, Some(count))
}

// The tag of data saved without c, whatever tally was saved with them: c 1, and no tally.
#[unsafe(no_mangle)]
pub extern "C" fn saigagalena_uncounted_tag() -> LweTag
    ensures { result ≡ tag_saved Absent None }
{
    LweTag::saved(u64::MAX, None)
}

// 1 where 2t × tally + c × t < q, else 0; or 2^32 plus the first of 2, 7, 8, 17 that applies.
#[unsafe(no_mangle)]
pub extern "C" fn saigagalena_is_good(modulus: u32, t: u32, tag: LweTag) -> u64
    ensures { result ≡ mark_number (mark_answer tag (modulus_for modulus) t) }
{
    c_numbers::mark_number(tag.is_good(Modulus::from(modulus), t))
}
