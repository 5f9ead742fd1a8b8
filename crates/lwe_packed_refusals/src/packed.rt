// Packed plaintexts.
ghost use Rattle.std.specs.Prelude.{◌≡◌, ◌||◌, ◌+◌};
ghost use Rattle.scheme.specs.Checks.{refusal, length_fails, count_fails, words_fail};
ghost use Rattle.primus_reduce.specs.Ring.{size_of};
ghost use Rattle.check_order.specs.Answer.{code_of};
ghost use Rattle.lwe_packed_refusals.specs.Rows.{packed_rows};
ghost use Rattle.lwe_errors.specs.Errors.{errors_of};

use check_order::{Refusal, Values};
use lwe_errors::LweErrorsRef;
use lwe_parameters::LweEncryptionParameters;
use primus_lattice::LweDimension;
use primus_reduce::Modulus;

// 10: more than n bodies are asked for.
pub(crate) fn count_refused(dimension: LweDimension, count: usize) -> bool
    ensures { result ≡ count_fails count dimension.0 }
{
    dimension.get() < count
}

// 11: `room` is not n mask words and `count` bodies. No sum: it could overflow.
pub(crate) fn room_differs(dimension: LweDimension, room: usize, count: usize) -> bool
    ensures { result ≡ length_fails room (dimension.0 + count) }
{
    let n = dimension.get();
    room < n || room - n != count
}

// 14: of the key, the mask and the plaintexts.
fn words_refused(modulus: Modulus, secret: &[u32], mask: &[u32], plaintexts: &[u32]) -> bool
    ensures { result ≡ ((words_fail (size_of modulus) plaintexts.now
        || words_fail (size_of modulus) mask.now)
        || words_fail (size_of modulus) secret.now) }
{
    checks::both_refused(modulus, mask, plaintexts) | checks::words_refused(modulus, secret)
}

// What refuses packed plaintexts. Stays beside that of messages:
// in one function a match on what is encrypted would choose the checks twice, of the sizes and of the values.
pub fn packed_refusal(
    params: LweEncryptionParameters,
    secret: &[u32],
    mask: &[u32],
    errors: LweErrorsRef,
    plaintexts: &[u32],
    room: usize,
) -> Result<(), Refusal>
    ensures { code_of result ≡ refusal (packed_rows params secret.now mask.now
        (errors_of errors.entry) plaintexts.now room) }
{
    let dimension = params.dimension;
    let count = plaintexts.len();
    let mut s = params.sizes();
    s.key = dimension.differs(secret.len());
    s.input = count_refused(dimension, count);
    s.output = room_differs(dimension, room, count);
    s.lent = checks::lengths_differ(mask.len(), dimension.get(), errors.count(), count);
    s.judge()?;
    let mut v = Values::default();
    v.word = words_refused(params.modulus, secret, mask, plaintexts)
        | errors.words_refused(params.modulus);
    v.error = errors.outside(params.error_limit, params.modulus);
    v.judge()
}
