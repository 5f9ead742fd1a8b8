// The rounding of x × to / from.
ghost use Rattle.std.specs.Prelude.{◌≡◌, ◌^◌, ◌<◌, ◌≤◌};
ghost use Rattle.scheme.specs.Codec.{modulus_switch};

// ⌊(2x × to + from) / (2 × from)⌋. In this form no part passes 64 bits: x × to + 2^31 ≤ 2^64 − 2^31. From a power of two it is a shift.
#[tactic(auto, using(scheme::proofs::Codec::switch_half))]
pub fn switch_value(from: u64, to: u64, x: u32) -> u64
    requires { (0 < from) × (from ≤ 2 ^ 32) × (to ≤ 2 ^ 32) }
    ensures { result ≡ modulus_switch from to x }
{
    reduce_words::quotient(x as u64 * to + from / 2, from)
}
