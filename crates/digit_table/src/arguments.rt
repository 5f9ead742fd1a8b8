// The arguments: a basis in decimal numbers.
use primus_decompose::ApproxSignedBasis;
use primus_reduce::Modulus;
use std::env::{Env, FillError};

pub(crate) fn none(rt: &impl Env) -> bool {
    let mut room = [0u8; 32];
    matches!(rt.arg(1, &mut room), Err(FillError::NotPresent))
}

pub(crate) fn basis(rt: &impl Env) -> Option<ApproxSignedBasis> {
    let modulus = programs::argument(rt, 1, None)?;
    let base_log = programs::argument(rt, 2, None)?;
    let levels = programs::argument(rt, 3, Some(0))?;
    Some(ApproxSignedBasis::given(Modulus::from(modulus), base_log, levels))
}
