// Packed plaintexts and phases. Body i uses the mask rotated right by i, its first i words negated.
ghost use Rattle.check_order.specs.Answer.{code_of};
ghost use Rattle.primus_lwe_packed.specs.Answers.{EncryptsPacked, TakesPackedPhases};
ghost use Rattle.lwe_errors.specs.Errors.{errors_of};

use check_order::Refusal;
use lwe_errors::LweErrorsRef;
use lwe_packed_refusals::{packed_phase_refusal, packed_refusal};
use lwe_parameters::{LweEncryptionParameters, LwePhaseParameters};
use lwe_tag::LweTag;
use primus_reduce::Ring;

// n mask words, then a body for each plaintext; no tally. Refuses by 2, 6, 9, 10, 11, 12, 13, 14, 15.
#[tactic(auto, using(primus_lwe::proofs::Laws::ring_judged))]
pub fn encrypt_encoded_packed(
    params: LweEncryptionParameters,
    secret: &[u32],
    mask: &[u32],
    errors: LweErrorsRef,
    plaintexts: &[u32],
    out: &mut [u32],
) -> Result<LweTag, Refusal>
    ensures { EncryptsPacked params secret.now mask.now (errors_of errors.entry)
        plaintexts.now out.old result out.new }
{
    packed_refusal(params, secret, mask, errors, plaintexts, out.len())?;
    let ring = Ring {
        modulus: params.modulus,
    };
    lwe_packing::write_plaintexts(out, mask, secret, errors, plaintexts, ring);
    Ok(LweTag::untallied())
}

// The phase of each body. Refuses by 2, 6, 9, 10, 11, 14.
#[tactic(auto, using(primus_lwe::proofs::Laws::ring_judged))]
pub fn decrypt_phase_packed(
    params: LwePhaseParameters,
    secret: &[u32],
    input: &[u32],
    out: &mut [u32],
) -> Result<(), Refusal>
    ensures { TakesPackedPhases params secret.now input.now out.old
        (code_of result) out.new }
{
    packed_phase_refusal(params, secret, input, out.len())?;
    let ring = Ring {
        modulus: params.modulus,
    };
    lwe_packing::phases(out, input, secret, ring);
    Ok(())
}
