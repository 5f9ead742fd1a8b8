// One ciphertext of a file that is judged, added to that of a total.
ghost use Rattle.std.specs.Prelude.{◌≡◌, ◌+◌, ◌*◌, ◌^◌, ◌<◌, ◌≤◌, length};
ghost use Rattle.scheme.specs.Lwe.{add_words};
ghost use Rattle.scheme.specs.Checks.{refusal};
ghost use Rattle.primus_reduce.specs.Ring.{size_of};
ghost use Rattle.primus_lattice.specs.Answers.{add_rows};
ghost use Rattle.saved.specs.Layout.{saved_tag};
ghost use Rattle.pooling_rows.specs.Rows.{added_tag, words_from, row_at, replaced_row};

use lwe_tag::LweTag;
use primus_lattice::{LweDimension, add_assign};
use primus_reduce::Modulus;

// The words of a file from word `at` on, as many as the buffer holds.
// Stays beside `saved::words_to`, which begins at word 0: this begins at any, and asks that no place overflows.
#[tactic(auto, using(scheme::proofs::Lists::is_tabulate))]
fn words_from(out: &mut [u32], bytes: &[u8], at: usize)
    requires { at + length out.old < 2 ^ 64 }
    ensures { out.new ≡ words_from bytes.now at (length out.old) }
{
    for (k, word) in out.iter_mut().enumerate() {
        *word = saved::word_at(bytes, at + k);
    }
}

// A row of the largest dimension. Stays: fixed memory, with no heap, cut to the width of the total.
const ROW: usize = LweDimension::MAX + 1;

// Adds ciphertext i of a file to that of a total, in its place: the tag of the sum.
// Stays: i, a place and no length; and q and n alone, as `add_assign` takes them.
pub fn add_row(
    total: &mut [u32],
    tag: LweTag,
    bytes: &[u8],
    i: usize,
    modulus: Modulus,
    dimension: LweDimension,
) -> LweTag
    requires { let width = dimension.0 + 1 in (i * width + width ≤ length total.old) × (width ≤ 2049)
        × (refusal (add_rows modulus dimension.0 (row_at width total.old i) tag
        (words_from bytes.now (i * width) width) (saved_tag bytes.now i)) ≡ 0) }
    ensures { let width = dimension.0 + 1 in (total.new ≡ replaced_row width total.old i
        (add_words (size_of modulus) (row_at width total.old i)
        (words_from bytes.now (i * width) width)))
        × (result ≡ added_tag tag (saved_tag bytes.now i)) }
{
    let width = dimension.get() + 1;
    let at = i * width;
    let mut space = [0u32; ROW];
    let room = &mut space[..width];
    words_from(room, bytes, at);
    let given = saved::tag_at(bytes, i);
    let row = &mut total[at..at + width];
    add_assign(modulus, dimension, row, tag, room, given).unwrap()
}
