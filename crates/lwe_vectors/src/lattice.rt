// Dimensions, parameters, tallies and marks, sums, and samples of packed ciphertexts.
use crate::record::{Head, Record};
use crate::said::Said;
use crate::{said, tags};
use check_order::Refusal;
use lwe_parameters::{LweEncryptionParameters, LweParameters};
use primus_lattice::LweDimension;
use primus_reduce::Modulus;

fn dimension_is(h: Head) -> Result<bool, Refusal> {
    Ok(LweDimension::try_new(h.n)?.get() == h.n)
}

pub(crate) fn dimension(h: Head) -> Said {
    said::holds(dimension_is(h))
}

fn encryption_parameters_are(h: Head) -> Result<bool, Refusal> {
    let dimension = LweDimension::given(h.n);
    let p = LweEncryptionParameters::try_new(dimension, h.modulus, h.error_limit)?;
    Ok(p == h.encryption_parameters())
}

pub(crate) fn encryption_parameters(h: Head) -> Said {
    said::holds(encryption_parameters_are(h))
}

fn parameters_are(h: Head) -> Result<bool, Refusal> {
    let dimension = LweDimension::given(h.n);
    let p = LweParameters::try_new(dimension, h.modulus, h.t, h.error_limit)?;
    Ok(p == h.parameters())
}

pub(crate) fn parameters(h: Head) -> Said {
    said::holds(parameters_are(h))
}

// What a tag says of itself.
pub(crate) fn saved(r: &Record) -> Said {
    said::written(Ok(tags::lent(r.c, 0)), tags::expected(r.c, 1, 0))
}

// The tags alone, beside two ciphertexts of zeros.
pub(crate) fn tally_sum(r: &Record) -> Said {
    let dimension = LweDimension::given(1);
    let mut zeros = [0; 2];
    let others = [0; 2];
    let (x, y) = (tags::lent(r.c, 0), tags::lent(r.c, 1));
    let answer = primus_lattice::add_assign(Modulus::Native, dimension, &mut zeros, x, &others, y);
    said::written(answer, tags::expected(r.c, 2, 0))
}

pub(crate) fn mark(r: &Record) -> Said {
    said::holds(tags::lent(r.c, 0).is_good(r.head.modulus, r.head.t))
}

// A sum of the buffer and b, with their tags.
pub(crate) fn sum(r: &Record, out: &mut [u32]) -> Said {
    let dimension = LweDimension::given(r.head.n);
    let (x, y) = (tags::lent(r.c, 0), tags::lent(r.c, 1));
    let answer = primus_lattice::add_assign(r.head.modulus, dimension, out, x, r.b, y);
    said::written(answer, tags::expected(r.c, 2, 0))
}

// The sample of the body whose index is the record's value, of the ciphertext b.
pub(crate) fn sample(r: &Record, out: &mut [u32]) -> Said {
    let h = r.head;
    let dimension = LweDimension::given(h.n);
    let index = h.value as usize;
    let tag = tags::lent(r.c, 0);
    let answer = lwe_samples::extract_lwe_at(h.modulus, dimension, r.b, tag, index, out);
    said::written(answer, tags::expected(r.c, 1, 0))
}
