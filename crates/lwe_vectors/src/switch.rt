// Key switching. The basis is judged before the call, the dimensions by it.
use crate::kind::Form;
use crate::record::{Head, Record};
use crate::said::Said;
use crate::{said, tags};
use check_order::Refusal;
use key_switch::{key_switch_batch_to, key_switch_to};
use key_switch_key::LweKeySwitchingKey;
use key_switch_parameters::LweKeySwitchingParameters;
use primus_decompose::{ApproxSignedBasis, DecompositionBaseLog, DecompositionLevelCount};
use primus_lattice::{LweDimension, LweTag};

// The number of levels that leaves them open.
// Stays: the number that the file has for it; `levels` makes it an Option.
const FULL: u32 = 0xffff_ffff;

// The answer of a record whose entry is not there.
// Stays: no Option: what a call answers is one number in a record, and this is it where there is no entry.
const MISSING: u32 = 0xffff_ffff;

// The most tags of a batch.
const ROWS: usize = 64;

fn levels(n: u32) -> Option<DecompositionLevelCount> {
    (n != FULL).then_some(DecompositionLevelCount::new(n as usize))
}

// What the calls are given; a basis that is refused is not there.
fn parameters_of(h: Head) -> Result<LweKeySwitchingParameters, Refusal> {
    let base_log = DecompositionBaseLog::given(h.base_log);
    let basis = ApproxSignedBasis::try_new(h.modulus, base_log, levels(h.levels))?;
    Ok(LweKeySwitchingParameters {
        basis,
        input_dimension: LweDimension::given(h.n),
        output_dimension: LweDimension::given(h.m),
    })
}

// A number that names no kind: what refuses its basis, if anything does.
pub(crate) fn unnamed(h: Head) -> Said {
    match parameters_of(h) {
        Ok(_) => None,
        Err(refusal) => Some(Err(refusal)),
    }
}

fn tried(h: Head) -> Result<(), Refusal> {
    let p = parameters_of(h)?;
    LweKeySwitchingParameters::try_new(p.basis, p.input_dimension, p.output_dimension)?;
    Ok(())
}

pub(crate) fn parameters(h: Head) -> Said {
    said::done(tried(h))
}

// A key: secret a or d, output secret c, masks b, errors e.
fn generated(r: &Record, form: Form, out: &mut [u32]) -> Result<(), Refusal> {
    let h = r.head;
    let secret = form.key(r);
    LweKeySwitchingKey::generate(parameters_of(h)?, h.error_limit, secret, r.c, r.b, r.e, out)
}

pub(crate) fn key(r: &Record, form: Form, out: &mut [u32]) -> Said {
    said::done(generated(r, form, out))
}

// A switch: key a, input b.
fn switched(r: &Record, out: &mut [u32]) -> Result<LweTag, Refusal> {
    key_switch_to(parameters_of(r.head)?, r.a, r.b, tags::lent(r.c, 0), out)
}

pub(crate) fn single(r: &Record, out: &mut [u32]) -> Said {
    said::written(switched(r, out), tags::expected(r.c, 1, 0))
}

// Stays beside `switched` and `single`: another call of the library, as in packed.
fn switched_batch(r: &Record, tags: &mut [LweTag], out: &mut [u32]) -> Result<(), Refusal> {
    key_switch_batch_to(parameters_of(r.head)?, r.a, r.b, tags, out)
}

pub(crate) fn batch(r: &Record, out: &mut [u32]) -> Said {
    let mut room = [LweTag::untallied(); ROWS];
    let lent = tags::lend(r, &mut room);
    let answer = switched_batch(r, lent, out);
    if tags::left(r, lent) {
        said::done(answer)
    } else {
        None
    }
}

// A place goes with a part as long as the buffer, which is copied there; any other answer goes with an empty part.
fn placed(answer: Result<Option<usize>, Refusal>, part: &[u32], out: &mut [u32]) -> Said {
    match answer {
        Ok(Some(start)) if part.len() == out.len() => {
            out.copy_from_slice(part);
            Some(Ok((start % 0x1_0000_0000) as u32))
        }
        Ok(None) if part.is_empty() => Some(Ok(MISSING)),
        Err(refusal) if part.is_empty() => Some(Err(refusal)),
        _ => None,
    }
}

// An entry: key a, place, level. What both calls say of it.
pub(crate) fn entry(r: &Record, out: &mut [u32]) -> Said {
    let h = r.head;
    let (i, j) = (h.value as usize, h.t as usize);
    match parameters_of(h) {
        Ok(params) => {
            let answer = LweKeySwitchingKey::entry(params, r.a, i, j);
            let part = LweKeySwitchingKey::entry_words(params, r.a, i, j);
            placed(answer, part, out)
        }
        Err(refusal) => Some(Err(refusal)),
    }
}
