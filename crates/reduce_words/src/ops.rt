// Remainders, sums and differences modulo an explicit q. Any word is taken: one that is not below q is reduced first.
ghost use Rattle.std.specs.Prelude.{◌≡◌, ◌%◌, ◌<◌, pos, ◌+ℤ◌, ◌-ℤ◌, MatchOption};
ghost use Rattle.scheme.specs.Modulus.{is_power};
ghost use Rattle.scheme.specs.Numbers.{residue};

use crate::power;

// q, which is not 0.
#[derive(Clone, Copy)]
pub struct Divisor {
    pub q: u32,
    ghost positive: { 0 < q },
}

impl Divisor {
    // None for 0.
    pub fn new(q: u32) -> Option<Divisor>
        ensures { MatchOption result (q ≡ 0) (λ d. d.q ≡ q) }
    {
        if q == 0 { None } else { Some(Divisor { q }) }
    }

    // Whether q is a power of two. Stays beside the function: `value_bits` asks it of any number.
    pub fn is_power(self) -> bool
        ensures { result ≡ is_power 32 self.q }
    {
        power::is_power(self.q)
    }

    // x mod q: the low bits for a power of two, else the only division by q.
    pub fn reduce(self, x: u64) -> u32
        ensures { result ≡ x % self.q }
    {
        if self.is_power() {
            power::low_bits(x, self.q.trailing_zeros())
        } else {
            (x % self.q as u64) as u32
        }
    }

    // s mod q. 2^64 mod q is the square of 2^32 mod q.
    #[tactic(auto, using(crate::proofs::Laws::wide_mod))]
    pub fn reduce_wide(self, s: u128) -> u32
        ensures { result ≡ s % self.q }
    {
        let half = self.reduce(0x1_0000_0000) as u64;
        let turn = self.reduce(half * half) as u64;
        let high = self.reduce((s >> 64) as u64) as u64;
        let low = self.reduce((s % 0x1_0000_0000_0000_0000) as u64) as u64;
        self.reduce(turn * high + low)
    }

    // x mod q, with no division where x is below q.
    fn canonical(self, x: u32) -> u32
        ensures { result ≡ x % self.q }
    {
        if x < self.q { x } else { self.reduce(x as u64) }
    }

    // a + b mod q
    #[tactic(auto, using(crate::proofs::Laws::add_small, crate::proofs::Laws::add_large))]
    pub fn add(self, a: u32, b: u32) -> u32
        ensures { result ≡ residue (pos a +ℤ pos b) self.q }
    {
        let x = self.canonical(a);
        let y = self.canonical(b);
        if x < self.q - y {
            x + y
        } else {
            x - (self.q - y)
        }
    }

    // a − b mod q
    #[tactic(auto, using(crate::proofs::Laws::sub_small, crate::proofs::Laws::sub_large))]
    pub fn sub(self, a: u32, b: u32) -> u32
        ensures { result ≡ residue (pos a -ℤ pos b) self.q }
    {
        let x = self.canonical(a);
        let y = self.canonical(b);
        if y <= x { x - y } else { self.q - (y - x) }
    }
}
