// Phases and messages of a packed ciphertext.
ghost use Rattle.std.specs.Prelude.{◌≡◌, ◌-◌};
ghost use Rattle.scheme.specs.Checks.{refusal, length_fails};
ghost use Rattle.check_order.specs.Answer.{code_of};
ghost use Rattle.lwe_packed_refusals.specs.Rows.{packed_phase_rows, packed_decrypt_rows, packed_opening_rows};

use check_order::{Refusal, Values};
use lwe_parameters::{LweDecryptionParameters, LwePhaseParameters};
use lwe_samples::packed_refused;
use primus_lattice::LweDimension;

// 11: `room` is not a word for each body of an input of `len` words.
fn output_differs(dimension: LweDimension, room: usize, len: usize) -> bool
    ensures { result ≡ length_fails room (len - dimension.0) }
{
    room != len.saturating_sub(dimension.get())
}

// What refuses an opening, of messages where there is a plaintext modulus.
fn opening_refusal(
    params: LwePhaseParameters,
    plaintext_modulus: Option<u32>,
    secret: &[u32],
    input: &[u32],
    room: usize,
) -> Result<(), Refusal>
    ensures { code_of result ≡
        refusal (packed_opening_rows plaintext_modulus params secret.now input.now room) }
{
    let dimension = params.dimension;
    let mut s = params.sizes_with(plaintext_modulus);
    s.key = dimension.differs(secret.len());
    s.input = packed_refused(input.len(), dimension.get());
    s.output = output_differs(dimension, room, input.len());
    s.judge()?;
    let mut v = Values::default();
    v.word = checks::both_refused(params.modulus, secret, input);
    v.judge()
}

// What refuses phases of a packed ciphertext.
// Stays, as the next, beside `opening_refusal`: each promises the rows that the promise of its call names.
pub fn packed_phase_refusal(
    params: LwePhaseParameters,
    secret: &[u32],
    input: &[u32],
    room: usize,
) -> Result<(), Refusal>
    ensures { code_of result ≡ refusal (packed_phase_rows params secret.now input.now room) }
{
    opening_refusal(params, None, secret, input, room)
}

// What refuses a decryption of a packed ciphertext.
pub fn packed_decrypt_refusal(
    params: LweDecryptionParameters,
    secret: &[u32],
    input: &[u32],
    room: usize,
) -> Result<(), Refusal>
    ensures { code_of result ≡ refusal (packed_decrypt_rows params secret.now input.now room) }
{
    let t = Some(params.plaintext_modulus);
    opening_refusal(params.into(), t, secret, input, room)
}
