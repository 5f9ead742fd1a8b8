// The constants of a basis.
ghost use Rattle.std.specs.Prelude.{◌≡◌, ◌+◌, ◌-◌, ◌*◌, ◌%◌, ◌^◌, ◌<◌, ◌≤◌};
ghost use Rattle.scheme.specs.Numbers.{tabulate};
ghost use Rattle.scheme.specs.Basis.{bound_of};
ghost use Rattle.scheme.specs.Checks.{refusal, basis_rows};
ghost use Rattle.primus_reduce.specs.Ring.{meant};
ghost use Rattle.gadget_constants.specs.Prepared.{Narrow, wrap_at, Ready, prepared_of, scalar_at};

use primus_reduce::Modulus;

// A basis with its constants, prepared once for many words: q, base log, L, d, T, 2^k − q and q − B.
// Stays: no ghost field says `Ready`: the fields are open, and what is made of a word is promised of any constants that a user sets.
#[derive(Clone, Copy)]
pub struct PreparedBasis {
    pub modulus: Modulus,
    pub log_basis: u32,
    pub level_count: usize,
    pub drop_bits: u32,
    pub threshold: u32,
    pub add: u32,
    pub modulus_minus_basis: u32,
}

// d = k − L × base log, or 0 where the levels do not fit.
pub fn drop_bits(bits: u32, log: u32, levels: usize) -> u32
    ensures { (result ≡ bits - levels * log) × (result ≤ bits) }
{
    if log == 0 {
        return bits;
    }
    let full = bits / log;
    if (full as usize) < levels {
        return 0;
    }
    bits - levels as u32 * log
}

// 2^n as a word: 0 from 2^32 on.
#[tactic(auto, using(crate::proofs::Getters::power_over))]
pub fn power_word(n: u64) -> u32
    ensures { result ≡ 2 ^ n % 2 ^ 32 }
{
    if n < 32 { 1 << n } else { 0 }
}

// 2^n
pub fn power(n: u32) -> u64
    requires { n ≤ 32 }
    ensures { result ≡ 2 ^ n }
{
    1 << n
}

// H: 2^(d−1), or 0 when d = 0.
#[tactic(auto, using(crate::proofs::Constants::bound_none, crate::proofs::Constants::bound_some))]
pub fn error_bound(d: u32) -> u32
    requires { d ≤ 32 }
    ensures { result ≡ bound_of d }
{
    if d == 0 { 0 } else { 1 << (d - 1) }
}

// T = P × 2^d + max(H, 1), with P = (B/2 − 1)(B^L − 1)/(B − 1).
// Stays: base log, L and d alone, here and below: T is made before the PreparedBasis that holds it, and weights are of a basis unjudged.
fn wrap_threshold(log: u32, levels: u32, d: u32) -> u32
    requires { Narrow log levels d }
    ensures { result ≡ wrap_at log levels d }
{
    let base = power(log);
    let largest = (base / 2 - 1) * (power(levels * log) - 1) / (base - 1);
    let rounding = u64::from(error_bound(d).max(1));
    (largest * power(d) + rounding) as u32
}

// The constants of a basis that passes 1 to 3 and 5.
// Stays: a requires, here and in the steps that call it: a basis is judged among the sizes of its call, and a struct for that alone would be
// made with the same proof and taken apart here.
pub fn prepare(modulus: Modulus, log: u32, levels: usize) -> PreparedBasis
    requires { refusal (basis_rows 32 (meant modulus) log levels) ≡ 0 }
    ensures { Ready result × (result ≡ prepared_of modulus log levels) }
{
    let q = modulus.size();
    let bits = modulus.value_bits();
    let count = levels as u32;
    let d = bits - count * log;
    PreparedBasis {
        modulus,
        log_basis: log,
        level_count: levels,
        drop_bits: d,
        threshold: wrap_threshold(log, count, d),
        add: (power(bits) - q) as u32,
        modulus_minus_basis: (q - power(log)) as u32,
    }
}

// The weights 2^d × B^j for j below L, as words; 0 above. Stays: an array, with no heap: no basis has more than 16.
pub fn scalars_from(d: u32, log: u32, levels: usize) -> [u32; 16]
    ensures { result ≡ tabulate 16 (scalar_at d log levels) }
{
    let mut w = [0; 16];
    for (j, weight) in w.iter_mut().enumerate() {
        *weight = scalar(d, log, levels, j);
    }
    w
}

// 2^(d + j × log) as a word for j below L, else 0.
fn scalar(d: u32, log: u32, levels: usize, j: usize) -> u32
    requires { j < 16 }
    ensures { result ≡ scalar_at d log levels j }
{
    if levels <= j {
        return 0;
    }
    power_word(u64::from(d) + j as u64 * u64::from(log))
}
