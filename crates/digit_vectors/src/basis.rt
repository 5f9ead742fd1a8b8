// A basis record: try_new's answer, and what the basis then says of itself.
use crate::bytes;
use primus_decompose::{ApproxSignedBasis, DecompositionBaseLog, DecompositionLevelCount, Refusal};

// The basis that was accepted last, if any.
pub type Held = Option<ApproxSignedBasis>;

fn levels_of(r: &[u8]) -> Option<DecompositionLevelCount> {
    let levels = DecompositionLevelCount::new(little_endian::u64_at(r, 10) as usize);
    (little_endian::u8_at(r, 9) != 0).then_some(levels)
}

fn try_new(r: &[u8]) -> Result<ApproxSignedBasis, Refusal> {
    let log_basis = DecompositionBaseLog::try_new(little_endian::u32_at(r, 5))?;
    ApproxSignedBasis::try_new(programs::modulus_at(r, 0), log_basis, levels_of(r))
}

// k, L, d, H, T and the weights
fn says(b: ApproxSignedBasis, r: &[u8]) -> bool {
    let levels = b.level_count();
    let w = b.scalars();
    let k = b.value_bits() == little_endian::u8_at(r, 19);
    let l = levels.get() == little_endian::u8_at(r, 20) as usize;
    let d = b.drop_bits() == little_endian::u8_at(r, 21);
    let h = b.approximate_error_bound() == little_endian::u32_at(r, 22);
    let expected = little_endian::u32_at(r, 26);
    let t = matches!(b.threshold(), Ok(t) if t == expected);
    k && l && d && h && t && bytes::run_is(&w, r.get(30..).unwrap_or(&[]))
}

// Whether the answer is the one expected. A refused basis keeps the one that is held.
// Stays: the file's number of a refusal, 0 for none: a Result of it would be matched again in the next line.
pub(crate) fn compare(r: &[u8], held: &mut Held) -> bool {
    let expected = little_endian::u8_at(r, 18);
    match try_new(r) {
        Ok(b) => {
            *held = Some(b);
            expected == 0 && says(b, r)
        }
        Err(refusal) => expected == u32::from(refusal),
    }
}
