// What a ciphertext carries beside its words: its tally, which bounds its error, and the number c of encryptions summed in it.
// The calls that write a ciphertext answer its tag. The fields are private: `LweTag::saved` is the one way to give them.
#![tactic(auto)]

ghost use Rattle.std.specs.Prelude.{◌≡◌, false, ◌||◌, ◌+◌, ◌*◌, ◌^◌, ◌<◌, ◌≤◌, ltb};
ghost use Rattle.scheme.specs.Checks.{refusal};
ghost use Rattle.scheme.specs.Tally.{Fresh, Switched, add_tally, add_carried, good_with, tally_fails, count_fails, carried_fails};
ghost use Rattle.primus_reduce.specs.Ring.{size_of};
ghost use Rattle.check_order.specs.Answer.{code_of};
ghost use Rattle.lwe_tag.specs.Answers.{meant_tally, held_tally, tally_for, number_of_tally, carried_of, tag_of, tag_from, tag_saved};
ghost use Rattle.lwe_tag.specs.Answers.{untallied, sum_tag, tag_fails, tags_fail, switched_tags, cap, mark_rows, mark_answer};

use check_order::{Refusal, Sizes, Values};
use primus_reduce::Modulus;

// The tally as 64 bits, 2^64 − 1 where there is none, and c: as C holds them and as files save them.
#[repr(C)]
#[derive(Clone, Copy, Debug, PartialEq, Eq)]
pub struct LweTag {
    tally: u64,
    count: u32,
}

// The number that stands for no tally.
// Stays: a number for none: C and files hold a tally as 64 bits.
const NO_TALLY: u64 = u64::MAX;

// 17 refuses a tally, given or summed, above this,
const CAP: u64 = 0x1_0000_0000;

// and a number of encryptions, given or summed, above this.
const COUNT_CAP: u64 = 65536;

// The tally that one number stands for. Stays: no From, here and below: both types are std's.
fn tally_from_number(number: u64) -> Option<u64>
    ensures { result ≡ tally_for number }
{
    match number {
        NO_TALLY => None,
        given => Some(given),
    }
}

// That number.
fn number_from_tally(tally: Option<u64>) -> u64
    ensures { result ≡ number_of_tally tally }
{
    tally.unwrap_or(NO_TALLY)
}

// 17, a tally that is given.
fn tally_refused(tally: Option<u64>) -> bool
    ensures { result ≡ tally_fails cap (meant_tally tally) }
{
    tally.is_some_and(|a| CAP < a)
}

// a + b exceeds 2^32. Two given numbers of 64 bits could wrap: they are compared before they are added.
fn exceeds(a: u64, b: u64) -> bool
    ensures { result ≡ ltb cap (a + b) }
{
    CAP < a || CAP - a < b
}

// 17, a sum.
fn sum_refused(x: Option<u64>, y: Option<u64>) -> bool
    ensures { result ≡ tally_fails cap (add_tally (meant_tally x) (meant_tally y)) }
{
    match (x, y) {
        (Some(a), Some(b)) => exceeds(a, b),
        _ => false,
    }
}

// A sum with one that has none has none.
fn sum(x: Option<u64>, y: Option<u64>) -> Option<u64>
    requires { tally_fails cap (add_tally (meant_tally x) (meant_tally y)) ≡ false }
    ensures { result ≡ held_tally (add_tally (meant_tally x) (meant_tally y)) }
{
    match (x, y) {
        (Some(a), Some(b)) => Some(a + b),
        _ => None,
    }
}

// 17, a number of encryptions: c that is given, or a sum of two in 64 bits, where it cannot wrap.
fn count_refused(count: u64) -> bool
    ensures { result ≡ count_fails count }
{
    COUNT_CAP < count
}

// 17, the sum of two tags.
fn tags_exceed(x: LweTag, y: LweTag) -> bool
    ensures { result ≡ carried_fails cap (add_carried (carried_of x) (carried_of y)) }
{
    sum_refused(x.tally(), y.tally()) | count_refused(x.count as u64 + y.count as u64)
}

// 17, two tags, given and summed.
pub fn tags_refused(x: LweTag, y: LweTag) -> bool
    ensures { result ≡ ((carried_fails cap (add_carried (carried_of x) (carried_of y)) || tag_fails y) || tag_fails x) }
{
    (tags_exceed(x, y) | y.refused()) | x.refused()
}

// The tag of a sum; without a tally where 17 refuses a sum of ciphertexts.
// Stays beside `tags_refused`: 17 is judged with the other values, before anything is written.
pub fn tags_sum(x: LweTag, y: LweTag) -> LweTag
    ensures { result ≡ sum_tag x y }
{
    if tags_exceed(x, y) {
        return LweTag::untallied();
    }
    let tally = sum(x.tally(), y.tally());
    LweTag::of(number_from_tally(tally), x.count + y.count)
}

// 17, one of the tags.
pub fn any_refused(tags: &[LweTag]) -> bool
    ensures { result ≡ tags_fail tags.now }
{
    tags.iter().any(|tag| tag.refused())
}

// The tags of ciphertexts that were switched, in place of their own.
#[tactic(auto, using(scheme::proofs::InPlace::filled_start, scheme::proofs::InPlace::filled_end, crate::proofs::Laws::switched_length))]
pub fn without_tallies(tags: &mut [LweTag])
    ensures { tags.new ≡ switched_tags tags.old }
{
    for tag in tags.iter_mut() {
        *tag = tag.without_tally();
    }
}

// 2t × a + c × t < q. From a = 2^30 on it never holds, since t ≥ 2; below that the products have less than 63 and 49 bits.
fn below(q: u64, t: u32, a: u64, count: u32) -> bool
    requires { (2 ≤ t) × (q ≤ 2 ^ 32) × (count ≤ 65536) }
    ensures { result ≡ ltb (2 * t * a + count * t) q }
{
    if 0x4000_0000 <= a {
        return false;
    }
    2 * t as u64 * a + count as u64 * (t as u64) < q
}

// A ciphertext without a tally is never marked good.
fn marked(q: u64, t: u32, tally: Option<u64>, count: u32) -> bool
    requires { (2 ≤ t) × (q ≤ 2 ^ 32) × (count ≤ 65536) }
    ensures { result ≡ good_with q t (meant_tally tally) count }
{
    tally.is_some_and(|a| below(q, t, a, count))
}

// Stays: three lines that `Moduli::judge` has too: a tag would be built on the codec's crate for them alone.
fn mark_refusal(tag: LweTag, modulus: Modulus, t: u32) -> Result<(), Refusal>
    ensures { code_of result ≡ refusal (mark_rows tag modulus t) }
{
    let mut s = Sizes::default();
    s.modulus = checks::modulus_refused(modulus);
    s.plaintext = checks::plaintext_refused(t);
    s.small = checks::small_refused(t, modulus);
    s.judge()?;
    let mut v = Values::default();
    v.tally = tag.refused();
    v.judge()
}

impl LweTag {
    fn of(tally: u64, count: u32) -> LweTag
        ensures { result ≡ record { tally = tally; count = count } }
    {
        LweTag { tally, count }
    }

    // The tag of one encryption under a secret key, with errors within ±E: its tally is E.
    pub fn fresh(error_limit: u32) -> LweTag
        ensures { result ≡ tag_from (Fresh error_limit) }
    {
        LweTag::of(u64::from(error_limit), 1)
    }

    // The tag of one encryption under a public key, and of a packed ciphertext: no tally.
    pub fn untallied() -> LweTag
        ensures { result ≡ untallied }
    {
        LweTag::of(NO_TALLY, 1)
    }

    // The tag of saved data, which is the sender's word: nothing here can check it against the words. Any numbers are taken, and the calls
    // judge them by 17; a tally of 2^64 − 1 is none. Saved without c, it is one encryption, whatever tally was saved: that may be the tally
    // of a sum whose roundings were not counted.
    pub fn saved(tally: u64, count: Option<u32>) -> LweTag
        ensures { result ≡ tag_saved (meant_tally (tally_for tally)) count }
    {
        match count {
            None => LweTag::untallied(),
            Some(count) => LweTag::of(tally, count),
        }
    }

    // The tag after a switch, and of one body taken out of a packed ciphertext: c is kept, a tally is not.
    pub fn without_tally(self) -> LweTag
        ensures { result ≡ tag_from (Switched (carried_of self)) }
    {
        LweTag::of(NO_TALLY, self.count)
    }

    // A public-key, packed or switched ciphertext has none.
    pub fn tally(self) -> Option<u64>
        ensures { result ≡ tally_for self.tally }
    {
        tally_from_number(self.tally)
    }

    // c, the number of encryptions summed.
    pub fn count(self) -> u32
        ensures { result ≡ self.count }
    {
        self.count
    }

    // 17.
    pub fn refused(self) -> bool
        ensures { result ≡ tag_fails self }
    {
        tally_refused(self.tally()) | count_refused(self.count as u64)
    }

    // 2t × tally + c × t < q. Refuses by 2, 7, 8, 17.
    #[tactic(auto, using(check_order::proofs::Answers::served))]
    pub fn is_good(self, modulus: Modulus, plaintext_modulus: u32) -> Result<bool, Refusal>
        ensures { result ≡ mark_answer self modulus plaintext_modulus }
    {
        mark_refusal(self, modulus, plaintext_modulus)?;
        Ok(marked(modulus.size(), plaintext_modulus, self.tally(), self.count))
    }
}
