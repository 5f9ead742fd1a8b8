// Answers for C: a refusal's number, or it with a tag, or one number of 64 bits: the result, or 2^32 plus the refusal's number.
ghost use Rattle.std.specs.Prelude.{◌≡◌};
ghost use Rattle.check_order.specs.Answer.{code_of};
ghost use Rattle.c_answers.specs.Service.{outcome_of, refused_number, word_number, mark_number};

use check_order::Refusal;
use lwe_tag::LweTag;

// 0 and the tag of each ciphertext that was written; or the number of the first refusal, and no tally. Stays: no Result: C reads both.
#[repr(C)]
#[derive(Clone, Copy)]
pub struct LweOutcome {
    pub refusal: u32,
    pub tag: LweTag,
}

impl From<Result<LweTag, Refusal>> for LweOutcome {
    ghost from_gives = { λ answer outcome. outcome ≡ outcome_of answer };

    fn from(answer: Result<LweTag, Refusal>) -> LweOutcome {
        match answer {
            Ok(tag) => LweOutcome { refusal: 0, tag },
            Err(refusal) => LweOutcome {
                refusal: u32::from(refusal),
                tag: LweTag::untallied(),
            },
        }
    }
}

// 0, or the refusal's number.
// Stays: an answer as a number, here and below: C has numbers alone.
pub fn code(answer: Result<(), Refusal>) -> u32
    ensures { result ≡ code_of answer }
{
    match answer {
        Ok(()) => 0,
        Err(refusal) => u32::from(refusal),
    }
}

// A refusal of any number.
pub fn refused(number: u32) -> u64
    ensures { result ≡ refused_number number }
{
    0x1_0000_0000 + number as u64
}

pub fn word_number(answer: Result<u32, Refusal>) -> u64
    ensures { result ≡ word_number answer }
{
    match answer {
        Ok(word) => word as u64,
        Err(refusal) => refused(u32::from(refusal)),
    }
}

// Stays beside `word_number`: over `u64: From<T>` its promise would be a relation, where the exports name a number.
pub fn mark_number(answer: Result<bool, Refusal>) -> u64
    ensures { result ≡ mark_number answer }
{
    match answer {
        Ok(good) => u64::from(good),
        Err(refusal) => refused(u32::from(refusal)),
    }
}
