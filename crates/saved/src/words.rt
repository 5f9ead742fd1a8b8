// The words of a saved file, and what is saved beside them.
ghost use Rattle.std.specs.Prelude.{◌≡◌, ℕ, ◌+◌, ◌*◌, ◌^◌, ◌<◌, ◌≤◌, pos, ◌-ℤ◌, length, get_or};
ghost use Rattle.little_endian.specs.Bytes.{word32, word64};
ghost use Rattle.saved.specs.Layout.{file_word, signed_word, held_number, saved_number, saved_count, saved_tag};

use lwe_tag::LweTag;

// Four bytes at base + 4i. Where the place overflows, it is past the end all the same.
#[tactic(auto, using(crate::proofs::Laws::four_capped))]
fn four_at(bytes: &[u8], base: usize, i: usize) -> u32
    ensures { result ≡ word32 bytes.now (base + 4 * i) }
{
    little_endian::u32_at(bytes, i.saturating_mul(4).saturating_add(base))
}

// Eight bytes at base + 8i. Stays beside `four_at`: another width.
#[tactic(auto, using(crate::proofs::Laws::eight_capped))]
fn eight_at(bytes: &[u8], base: usize, i: usize) -> u64
    ensures { result ≡ word64 bytes.now (base + 8 * i) }
{
    little_endian::u64_at(bytes, i.saturating_mul(8).saturating_add(base))
}

// Word i.
pub fn word_at(bytes: &[u8], i: usize) -> u32
    ensures { result ≡ file_word bytes.now i }
{
    four_at(bytes, 64, i)
}

// Word i as a signed number of the same bits: w, or w − 2^32 from 2^31 on. Stays beside a trait's `at`: a public
// call goes on for its users.
#[tactic(auto, using(crate::proofs::Laws::same_bits))]
pub fn signed_at(bytes: &[u8], i: usize) -> i32
    ensures { result ≡ signed_word (file_word bytes.now i) }
{
    word_at(bytes, i).cast_signed()
}

// A word of a file as a room keeps it.
pub trait SavedWord: Copy {
    // What the word w is there.
    ghost kept: { ℕ → Self };

    fn at(bytes: &[u8], i: usize) -> Self
        ensures { result ≡ kept (file_word bytes.now i) };
}

impl SavedWord for u32 {
    ghost kept = { λ w. w };

    fn at(bytes: &[u8], i: usize) -> u32 {
        word_at(bytes, i)
    }
}

// The signed number of the same bits.
impl SavedWord for i32 {
    ghost kept = { signed_word };

    fn at(bytes: &[u8], i: usize) -> i32 {
        signed_at(bytes, i)
    }
}

// The first words, as many as the buffer holds.
pub fn words_to<W: SavedWord>(bytes: &[u8], out: &mut [W])
    ensures { (length out.new ≡ length out.old)
        × ((k : ℕ) → k < length out.old → get_or out.new k (W.kept 0) ≡ W.kept (file_word bytes.now k)) }
{
    for (i, word) in out.iter_mut().enumerate() {
        *word = W::at(bytes, i);
    }
}

// A saved tally, as a tag holds it: 2^64 − 1 would stand for none there.
fn held(number: u64) -> u64
    ensures { result ≡ held_number number }
{
    number.min(u64::MAX - 1)
}

// The number of the tally of ciphertext i: 2^64 − 1 where the file has no tallies.
#[tactic(auto, unfolding(saved_head::specs::Head::head_of))]
fn number_at(bytes: &[u8], i: usize) -> u64
    ensures { result ≡ saved_number bytes.now i }
{
    let h = saved_head::head_of(bytes);
    if !h.has_tallies() {
        return u64::MAX;
    }
    held(eight_at(bytes, 64 + 4 * h.words as usize, i))
}

// c of ciphertext i, where the file has it. A packed ciphertext is ciphertext 0.
#[tactic(auto, unfolding(saved_head::specs::Head::head_of))]
fn count_at(bytes: &[u8], i: usize) -> Option<u32>
    ensures { result ≡ saved_count bytes.now i }
{
    let h = saved_head::head_of(bytes);
    if !h.has_counts() {
        return None;
    }
    let base = 64 + 4 * h.words as usize + h.tallies_size();
    Some(four_at(bytes, base, i))
}

// The tag of ciphertext i: the sender's word. Where the file has no c, it is 1, with no tally.
pub fn tag_at(bytes: &[u8], i: usize) -> LweTag
    ensures { result ≡ saved_tag bytes.now i }
{
    LweTag::saved(number_at(bytes, i), count_at(bytes, i))
}
