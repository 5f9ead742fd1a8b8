// Words counted by how many of their digits are not zero. The functions have a `requires`, and are not for users: the call of
// primus_decompose judges first.
// Stays: `Ready` is asked of each step, since a PreparedBasis has open fields, and so is the length of `counts`: the language takes no ghost
// field beside a `&mut`.
#![tactic(auto)]

ghost use Rattle.std.specs.Prelude.{◌≡◌, ◌+◌, ◌^◌, ◌<◌, length};
ghost use Rattle.scheme.specs.Counts.{nonzero, counts_of};
ghost use Rattle.primus_reduce.specs.Ring.{size_of};
ghost use Rattle.gadget_constants.specs.Prepared.{Ready, basis_in};

use gadget_constants::PreparedBasis;
use primus_reduce::Modulus;

// How many of the L digits of a word are not zero: L steps, of shifts and masks.
fn nonzero(p: PreparedBasis, value: u32) -> u32
    requires { Ready p × (value < size_of p.modulus) }
    ensures { result ≡ nonzero (basis_in p) value }
{
    let mut d = p.decomposer(value);
    let mut n = 0;
    for _ in 0..p.level_count {
        let s = d.step();
        n += u32::from(s.digit != 0);
        d = s.next;
    }
    n
}

// Word by word, q × L steps: any explicit modulus. Stays: q beside the basis: the caller's match has it, and here it is asked to be its modulus.
fn write_walked(counts: &mut [u32], p: PreparedBasis, q: u32)
    requires { Ready p × (q ≡ size_of p.modulus) × (length counts.old ≡ p.level_count + 1) }
    ensures { counts.new ≡ counts_of (basis_in p) }
{
    counts.fill(0);
    for a in 0..q {
        counts[nonzero(p, a) as usize] += 1;
    }
}

// A power of two in closed form, L + 1 steps: 2^d × C(L, j) × (B − 1)^j. C(L, j + 1) is C(L, j) × (L − j) / (j + 1), without a remainder.
fn write_closed(counts: &mut [u32], p: PreparedBasis)
    requires { Ready p × (size_of p.modulus ≡ 2 ^ (basis_in p).bits) × (length counts.old ≡ p.level_count + 1) }
    ensures { counts.new ≡ counts_of (basis_in p) }
{
    let others = gadget_constants::power(p.log_basis) - 1;
    let mut ways = 1;
    let mut words = gadget_constants::power(p.drop_bits);
    for (j, count) in counts.iter_mut().enumerate() {
        *count = (ways * words) as u32;
        ways = ways * (p.level_count - j) as u64 / (j as u64 + 1);
        words *= others;
    }
}

// The L + 1 counts.
pub fn write_counts(counts: &mut [u32], p: PreparedBasis)
    requires { Ready p × (length counts.old ≡ p.level_count + 1) }
    ensures { counts.new ≡ counts_of (basis_in p) }
{
    match p.modulus {
        Modulus::Explicit(q) if !p.modulus.is_power_of_two() => write_walked(counts, p, q),
        _ => write_closed(counts, p),
    }
}
