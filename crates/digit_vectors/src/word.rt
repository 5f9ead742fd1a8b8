// A word record: its reading and ε, and its digits by each call that gives them.
use crate::basis::Held;
use crate::bytes;
use primus_decompose::{ApproxSignedBasis, Reading, Refusal, SignedDecomposer};

// What a record expects of a word: its reading and ε, or the number of its refusal, and its digits, lowest first.
// Stays: a refusal as its number: no Refusal is made of one, and that of the answer is compared with it.
#[derive(Clone, Copy)]
pub struct Expected<'a> {
    word: u32,
    reading: Result<Reading, u32>,
    digits: &'a [u8],
}

impl<'a> Expected<'a> {
    pub(crate) fn new(r: &'a [u8]) -> Expected<'a> {
        let reading = Reading {
            reading: little_endian::u64_at(r, 5).cast_signed(),
            error: little_endian::u64_at(r, 13).cast_signed(),
        };
        Expected {
            word: little_endian::u32_at(r, 0),
            reading: match little_endian::u8_at(r, 4) {
                0 => Ok(reading),
                number => Err(number),
            },
            digits: r.get(21..).unwrap_or(&[]),
        }
    }

    // A short record is never refused. It holds four digits: any others are 0.
    pub(crate) fn short(r: &'a [u8]) -> Expected<'a> {
        Expected {
            word: little_endian::u32_at(r, 0),
            reading: Ok(Reading {
                reading: i64::from(little_endian::u32_at(r, 4).cast_signed()),
                error: i64::from(little_endian::u32_at(r, 8).cast_signed()),
            }),
            digits: r.get(12..).unwrap_or(&[]),
        }
    }

    fn refuses_by(&self, refusal: Refusal) -> bool {
        matches!(self.reading, Err(number) if number == u32::from(refusal))
    }

    fn reading_is(&self, b: ApproxSignedBasis) -> bool {
        match (b.reading(self.word), self.reading) {
            (Ok(r), Ok(x)) => r == x,
            (Err(refusal), _) => self.refuses_by(refusal),
            _ => false,
        }
    }

    fn steps_are(&self, start: SignedDecomposer, count: usize) -> bool {
        let mut right = true;
        let mut d = start;
        for i in 0..count {
            let s = d.step();
            right &= s.digit == bytes::word_at(self.digits, i);
            d = s.next;
        }
        right
    }

    // The digits by steps.
    fn walk_is(&self, b: ApproxSignedBasis, levels: usize) -> bool {
        match b.decomposer(self.word) {
            Ok(d) => self.reading.is_ok() && self.steps_are(d, levels),
            Err(refusal) => self.refuses_by(refusal),
        }
    }

    // The digits by `decompose`; a refusal leaves the sevens.
    fn digits_are(&self, b: ApproxSignedBasis, out: &mut [u32]) -> bool {
        match b.decompose(self.word, out) {
            Ok(()) => self.reading.is_ok() && bytes::run_is(out, self.digits),
            Err(refusal) => self.refuses_by(refusal) && unchanged(out),
        }
    }

    // The digits of three words by `decompose_slice_to`, the first and the last being the word.
    fn runs_are(&self, b: ApproxSignedBasis, out: &mut [u32]) -> bool {
        let words = [self.word, 0, self.word];
        match b.decompose_slice_to(&words, out) {
            Ok(()) => self.reading.is_ok() && bytes::ends_are(out, self.digits),
            Err(refusal) => self.refuses_by(refusal) && unchanged(out),
        }
    }

    fn parts_are(&self, b: ApproxSignedBasis) -> bool {
        let levels = b.level_count();
        let n = levels.get();
        let mut buffer = [7u32; 48];
        let out: &mut [u32] = &mut buffer;
        let long = long_is_refused(b, self.word, n, out);
        let kept = unchanged(out);
        if out.len() / 3 < n {
            return false;
        }
        let one = self.digits_are(b, &mut out[..n]);
        let three = self.runs_are(b, &mut out[..3 * n]);
        self.walk_is(b, n) && long && kept && one && three
    }
}

// The buffer still holds the sevens that it was made of.
fn unchanged(out: &[u32]) -> bool {
    out.iter().all(|word| *word == 7)
}

// An output of one word too many is refused, and left alone.
fn long_is_refused(b: ApproxSignedBasis, word: u32, levels: usize, out: &mut [u32]) -> bool {
    if levels < out.len() {
        let answer = b.decompose(word, &mut out[..levels + 1]);
        return matches!(answer, Err(Refusal::OutputLength));
    }
    false
}

pub(crate) fn compare(held: Held, expected: &Expected) -> bool {
    match held {
        Some(b) => expected.reading_is(b) && expected.parts_are(b),
        None => false,
    }
}
