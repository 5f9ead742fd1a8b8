// Powers of two: remainders and quotients without a division, and the value bits of q.
ghost use Rattle.std.specs.Prelude.{◌≡◌, ◌/◌, ◌%◌, ◌^◌, ◌<◌, ◌≤◌};
ghost use Rattle.scheme.specs.Modulus.{is_power, value_bits_of};

// 2^t = q for the trailing zeros t of q.
// Stays: no `is_power_of_two`: std promises that one bit is set, and the steps here use t, for which a law between the two would be needed.
pub fn is_power(q: u32) -> bool
    ensures { result ≡ is_power 32 q }
{
    let t = q.trailing_zeros();
    t < 32 && 1u32 << t == q
}

// The trailing zeros of a power of two, else the bit width.
#[tactic(auto, unfolding(scheme::specs::Modulus::value_bits_of))]
pub fn value_bits(q: u32) -> u32
    ensures { result ≡ value_bits_of 32 q }
{
    if is_power(q) {
        q.trailing_zeros()
    } else {
        32 - q.leading_zeros()
    }
}

// x mod 2^bits: the mask has as many ones.
#[tactic(auto, using(crate::proofs::Laws::mask_of_32))]
pub(crate) fn low_bits(x: u64, bits: u32) -> u32
    requires { bits ≤ 32 }
    ensures { result ≡ x % 2 ^ bits }
{
    let mask = 0xffff_ffffu64 >> (32 - bits);
    (x & mask) as u32
}

// ⌊x / y⌋: a shift for a power of two. Stays: the test of `is_power` again, of 64 bits, for its t; a trait over two widths is no plainer.
pub fn quotient(x: u64, y: u64) -> u64
    requires { 0 < y }
    ensures { result ≡ x / y }
{
    let bits = y.trailing_zeros();
    if bits < 64 && 1u64 << bits == y {
        x >> bits
    } else {
        x / y
    }
}
