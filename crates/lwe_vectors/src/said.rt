// What a call said: its answer, or 0, or its refusal; none where what it wrote has another tag than it must have, or where a
// part is not as it must be. That equals no record.
use crate::record::Head;
use crate::tags::Carried;
use check_order::Refusal;
use primus_lattice::LweTag;

pub(crate) type Said = Option<Result<u32, Refusal>>;

// The call said what a record says.
// Stays: numbers compared, which a record has; a refused one has the answer 0 too.
pub(crate) fn agrees(said: Said, head: Head) -> bool {
    match said {
        Some(Ok(value)) => head.refusal == 0 && head.answer == value,
        Some(Err(refusal)) => head.refusal == u32::from(refusal) && head.answer == 0,
        None => false,
    }
}

// A call that answers by its refusal alone.
pub(crate) fn done(answer: Result<(), Refusal>) -> Said {
    Some(answer.map(|_| 0))
}

pub(crate) fn holds(answer: Result<bool, Refusal>) -> Said {
    Some(answer.map(|b| u32::from(b)))
}

// A call that writes ciphertexts, and whose tag must say this.
pub(crate) fn written(answer: Result<LweTag, Refusal>, expected: Carried) -> Said {
    match answer {
        Ok(tag) => (Carried::from(tag) == expected).then_some(Ok(0)),
        Err(refusal) => Some(Err(refusal)),
    }
}

// A fresh ciphertext under a secret key has tally E, and a public-key or packed one none; c is 1.
pub(crate) fn fresh(head: Head) -> Carried {
    Carried {
        tally: Some(u64::from(head.error_limit)),
        count: 1,
    }
}

pub(crate) fn untallied() -> Carried {
    Carried {
        tally: None,
        count: 1,
    }
}
