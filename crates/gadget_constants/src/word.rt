// A word under a basis: where its walk begins, its digits, its reading.
ghost use Rattle.std.specs.Prelude.{◌≡◌, ◌+◌, ◌-◌, ◌*◌, ◌/◌, ◌%◌, ◌^◌, ◌<◌, length, pos, ◌-ℤ◌, ◌==◌, nat_lt};
ghost use Rattle.scheme.specs.Numbers.{pick};
ghost use Rattle.scheme.specs.Digits.{runs_of};
ghost use Rattle.primus_reduce.specs.Ring.{size_of};
ghost use Rattle.gadget_digits.specs.Walk.{carry_in};
ghost use Rattle.gadget_constants.specs.Prepared.{Ready, basis_in};
ghost use Rattle.gadget_constants.specs.Word.{adjust_by, init_from, decomposer_from, reading_of, signed_by, Words};

use crate::prepared;
use crate::prepared::PreparedBasis;
use gadget_digits::SignedDecomposer;
use primus_reduce::Modulus;

// The adjusted word and the carry into the lowest level.
#[derive(Clone, Copy)]
pub struct ValueCarry {
    pub value: u32,
    // Stays: a carry into the next window: the value holds either way.
    pub carry: bool,
}

// The reading of a word and its rounding error ε.
#[derive(Clone, Copy, PartialEq, Eq)]
pub struct Reading {
    pub reading: i64,
    pub error: i64,
}

// The highest dropped bit. A word has none above its 32.
#[tactic(auto, using(crate::proofs::Constants::carry_none, crate::proofs::Constants::carry_some, crate::proofs::Constants::carry_beyond))]
fn carry_in(v: u32, d: u32) -> bool
    ensures { result ≡ (carry_in d v == 1) }
{
    if d == 0 {
        return false;
    }
    if 32 < d {
        return false;
    }
    (v >> (d - 1)) % 2 == 1
}

// a below T, else a + 2^k − q, which wraps for no word below q.
fn adjust(a: u32, threshold: u32, add: u32) -> u32
    ensures { result ≡ adjust_by threshold add a }
{
    if a < threshold {
        return a;
    }
    a.wrapping_add(add)
}

impl PreparedBasis {
    // The word as its walk takes it: lifted from T on.
    fn adjusted(self, value: u32) -> u32
        ensures { result ≡ adjust_by self.threshold self.add value }
    {
        adjust(value, self.threshold, self.add)
    }

    // The adjusted word, and the carry into the lowest level.
    pub fn init_value_carry(self, value: u32) -> ValueCarry
        ensures { result ≡ init_from self value }
    {
        let adjusted = self.adjusted(value);
        ValueCarry {
            value: adjusted,
            carry: carry_in(adjusted, self.drop_bits),
        }
    }

    // The decomposer of a word, before its lowest level.
    pub fn decomposer(self, value: u32) -> SignedDecomposer
        ensures { result ≡ decomposer_from self value }
    {
        let s = self.init_value_carry(value);
        SignedDecomposer {
            value: gadget_digits::above(s.value, self.drop_bits),
            carry: s.carry,
            log_basis: self.log_basis,
            modulus_minus_basis: self.modulus_minus_basis,
        }
    }
}

// a − b
fn minus(a: u64, b: u64) -> i64
    requires { (a < 2 ^ 62) × (b < 2 ^ 62) }
    ensures { result ≡ pos a -ℤ pos b }
{
    a as i64 - b as i64
}

// What the lift takes away: nothing below T, else q.
fn lifted_by(a: u32, threshold: u32, q: u64) -> u64
    ensures { result ≡ pick (nat_lt a threshold) 0 q }
{
    if a < threshold { 0 } else { q }
}

// ε is the dropped part of the adjusted word plus H, less H; the reading is a' − ε.
// Stays: no method, nor `write_columns`: a user may hold a PreparedBasis, and nothing that a user can call has a requires.
#[tactic(auto, using(crate::proofs::Constants::dropped_most))]
pub fn read(p: PreparedBasis, a: u32) -> Reading
    requires { Ready p × (a < size_of p.modulus) }
    ensures { result ≡ reading_of (basis_in p) a }
{
    let modulus = p.modulus;
    let s = p.init_value_carry(a);
    let bound = prepared::error_bound(p.drop_bits) as u64;
    let rest = (s.value as u64 + bound) % prepared::power(p.drop_bits);
    let lost = lifted_by(a, p.threshold, modulus.size());
    Reading {
        reading: minus(a as u64 + bound, rest + lost),
        error: minus(rest, bound),
    }
}

// The number that a stored digit stands for: itself below B/2, else q less.
pub fn signed_digit(digit: u32, basis: u32, modulus: Modulus) -> i64
    ensures { result ≡ signed_by basis (size_of modulus) digit }
{
    if digit < basis / 2 {
        return minus(digit as u64, 0);
    }
    minus(digit as u64, modulus.size())
}

// Writes the digits of every word.
pub fn write_columns(out: &mut [u32], values: &[u32], p: PreparedBasis)
    requires { Ready p × Words (size_of p.modulus) values.now
        × (length out.old ≡ p.level_count * length values.now) }
    ensures { out.new ≡ runs_of (basis_in p) values.now }
{
    let levels = p.level_count;
    for (i, value) in values.iter().enumerate() {
        let d = p.decomposer(*value);
        gadget_digits::write_column(out, d, levels, values.len(), i);
    }
}
