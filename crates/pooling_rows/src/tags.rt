// The tags of a total, one for each place.
ghost use Rattle.std.specs.Prelude.{◌≡◌, length};
ghost use Rattle.pooling_rows.specs.Rows.{places_fail, saved_fail, saved_tags};

use lwe_tag::LweTag;

// 17, at some place: the tally or c of the total there, that of the file, or their sum.
#[tactic(auto, using(crate::proofs::Laws::somewhere_none, crate::proofs::Laws::somewhere_next), unfolding(crate::specs::Rows::places_fail))]
pub fn places_refused(tags: &[LweTag], bytes: &[u8]) -> bool
    ensures { result ≡ places_fail tags.now bytes.now }
{
    let mut any = false;
    for (i, tag) in tags.iter().enumerate() {
        any |= lwe_tag::tags_refused(*tag, saved::tag_at(bytes, i));
    }
    any
}

// 17, one of the first `places` tags of the file.
// Stays: a loop: with `any` over the range the proof did not close.
#[tactic(auto, using(crate::proofs::Laws::somewhere_none, crate::proofs::Laws::somewhere_next), unfolding(crate::specs::Rows::saved_fail))]
pub fn saved_refused(places: usize, bytes: &[u8]) -> bool
    ensures { result ≡ saved_fail places bytes.now }
{
    let mut any = false;
    for i in 0..places {
        any |= saved::tag_at(bytes, i).refused();
    }
    any
}

// The tags of the file, as those of a total.
#[tactic(auto, using(crate::proofs::Laws::is_saved))]
pub fn write_tags(tags: &mut [LweTag], bytes: &[u8])
    ensures { tags.new ≡ saved_tags (length tags.old) bytes.now }
{
    for (i, tag) in tags.iter_mut().enumerate() {
        *tag = saved::tag_at(bytes, i);
    }
}
