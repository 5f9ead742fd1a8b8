// A file for a total: 19 first, then the order.
ghost use Rattle.std.specs.Prelude.{◌≡◌, ◌||◌, ◌+◌, ◌*◌};
ghost use Rattle.scheme.specs.Checks.{refusal, length_fails, words_fail};
ghost use Rattle.primus_reduce.specs.Ring.{size_of};
ghost use Rattle.check_order.specs.Answer.{code_of};
ghost use Rattle.check_order.specs.Judged.{JudgesSizes};
ghost use Rattle.saved.specs.Layout.{file_words};
ghost use Rattle.pooling_refusals.specs.Rows.{other_fails, OwnHead, size_rows, begin_rows, total_rows, begin_refusal, total_refusal};

use check_order::{Refusal, Sizes, Values};
use lwe_parameters::LweDecryptionParameters;
use lwe_tag::LweTag;
use primus_lattice::LweDimension;
use primus_reduce::Modulus;
use saved_head::Head;

// 19: no ciphertexts of one message each, or made with another q or t.
// Stays: numbers compared: a caller may give `Explicit(0)`, whose number is native's: 2 refuses it, where `==` would give 19.
fn is_other(h: Head, modulus: Modulus, plaintext_modulus: u32) -> bool
    ensures { result ≡ other_fails h modulus plaintext_modulus }
{
    !h.kind.is_ciphertexts()
        || u32::from(h.modulus) != u32::from(modulus)
        || h.plaintext_modulus != plaintext_modulus
}

// The head of a whole file of this total; others are refused by 19. Stays: no `file_refusal(..)?`: one line has both that 19 stands for.
#[tactic(auto, unfolding(check_order::specs::Answer::number_of))]
fn own_head(params: LweDecryptionParameters, bytes: &[u8]) -> Result<Head, Refusal>
    ensures { OwnHead params bytes.now result }
{
    let h = saved_head::head_of(bytes);
    if saved_head::file_refused(bytes) | is_other(h, params.modulus, params.plaintext_modulus) {
        return Err(Refusal::Unreadable);
    }
    Ok(h)
}

// 10: another n, words that are not `count` ciphertexts, or not as many as the total's.
fn rows_differ(dimension: LweDimension, h: Head, len: usize) -> bool
    ensures { result ≡ ((length_fails len h.words || length_fails h.words (h.count * (dimension.0 + 1)))
        || length_fails h.n dimension.0) }
{
    let words = h.words as usize;
    let count = h.count as usize;
    let n = dimension.get();
    (checks::length_differs(len, words) | checks::ciphertexts_differ(words, count, n))
        | dimension.differs(h.n)
}

// 14: one of the first `count` words of a file.
#[tactic(auto, using(crate::proofs::Laws::words_none, crate::proofs::Laws::words_next))]
fn file_words_refused(q: Modulus, bytes: &[u8], count: usize) -> bool
    ensures { result ≡ words_fail (size_of q) (file_words bytes.now count) }
{
    let mut any = false;
    for i in 0..count {
        any |= checks::word_refused(q, saved::word_at(bytes, i));
    }
    any
}

// 14: a word of the total or of the file.
fn words_refused(q: Modulus, total: &[u32], bytes: &[u8], h: Head) -> bool
    ensures { result ≡ (words_fail (size_of q) (file_words bytes.now h.words)
        || words_fail (size_of q) total.now) }
{
    file_words_refused(q, bytes, h.words as usize) | checks::words_refused(q, total)
}

// 2 to 12, of a total of `len` words and `places` tags.
fn sizes(params: LweDecryptionParameters, h: Head, len: usize, places: usize) -> Sizes
    ensures { JudgesSizes (size_rows params h len places) result }
{
    let mut s = params.sizes();
    s.input = rows_differ(params.dimension, h, len);
    s.lent = checks::length_differs(places, h.count as usize);
    s
}

// Stays beside `judged`, and `begin_refusal` beside `total_refusal`: where a total begins, no words and no tags of it are judged.
fn begin_judged(
    params: LweDecryptionParameters,
    h: Head,
    bytes: &[u8],
    len: usize,
    places: usize,
) -> Result<(), Refusal>
    ensures { code_of result ≡ refusal (begin_rows params h bytes.now len places) }
{
    sizes(params, h, len, places).judge()?;
    let mut v = Values::default();
    v.word = file_words_refused(params.modulus, bytes, h.words as usize);
    v.tally = pooling_rows::saved_refused(places, bytes);
    v.judge()
}

fn judged(
    params: LweDecryptionParameters,
    h: Head,
    bytes: &[u8],
    total: &[u32],
    tags: &[LweTag],
) -> Result<(), Refusal>
    ensures { code_of result ≡ refusal (total_rows params h bytes.now total.now tags.now) }
{
    sizes(params, h, total.len(), tags.len()).judge()?;
    let mut v = Values::default();
    v.word = words_refused(params.modulus, total, bytes, h);
    v.tally = pooling_rows::places_refused(tags, bytes);
    v.judge()
}

// The first refusal that applies. Only a whole file of this total goes on past 19: no word is walked that is claimed and not
// there.
pub fn begin_refusal(
    params: LweDecryptionParameters,
    bytes: &[u8],
    len: usize,
    places: usize,
) -> Result<(), Refusal>
    ensures { code_of result ≡ begin_refusal params bytes.now len places }
{
    let h = own_head(params, bytes)?;
    begin_judged(params, h, bytes, len, places)
}

// What refuses a file that is added to a total.
pub fn total_refusal(
    params: LweDecryptionParameters,
    bytes: &[u8],
    total: &[u32],
    tags: &[LweTag],
) -> Result<(), Refusal>
    ensures { code_of result ≡ total_refusal params bytes.now total.now tags.now }
{
    let h = own_head(params, bytes)?;
    judged(params, h, bytes, total, tags)
}
