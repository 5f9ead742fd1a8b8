// The decomposer: windows of the adjusted word, each with the carry from the one below. `write_column` is a step of the calls above, not
// for users: it has a `requires`.
#![tactic(auto)]

ghost use Rattle.std.specs.Prelude.{◌≡◌, ◌*◌, ◌/◌, ◌%◌, ◌^◌, ◌<◌, ◌≤◌, length, min};
ghost use Rattle.gadget_digits.specs.Walk.{bit, window};
ghost use Rattle.gadget_digits.specs.Step.{step_to, step_of};
ghost use Rattle.gadget_digits.specs.Column.{Column};

// What is left of the adjusted word above the levels taken, and the carry into the next.
#[derive(Clone, Copy)]
pub struct SignedDecomposer {
    pub value: u32,
    // Stays: a carry into the next window: the value holds either way.
    pub carry: bool,
    pub log_basis: u32,
    pub modulus_minus_basis: u32,
}

// A digit modulo q, the carry out of its level, and the decomposer of the next.
#[derive(Clone, Copy)]
pub struct Step {
    pub digit: u32,
    // Stays: the carry out of this level, as the Rust hands it out: the digit holds either way.
    pub carry: bool,
    pub next: SignedDecomposer,
}

// ⌊x / 2^log⌋
#[tactic(auto, using(crate::proofs::Steps::above_none))]
pub fn above(x: u32, log: u32) -> u32
    ensures { result ≡ x / 2 ^ log }
{
    x.checked_shr(log).unwrap_or(0)
}

// B, or 2^63 in place of a larger one: no word and no window reaches half of it.
fn basis_within(log: u32) -> u64
    ensures { result ≡ 2 ^ min log 63 }
{
    1 << log.min(63)
}

// The lowest window of x, with the carry from the one below.
#[tactic(auto, using(crate::proofs::Steps::masked))]
fn window(x: u32, log: u32, carry: bool) -> u64
    ensures is { result ≡ window log x (bit carry) }
    ensures most { result ≤ 2 ^ 32 }
{
    let low = u64::from(x) & (basis_within(log) - 1);
    if carry { low + 1 } else { low }
}

impl SignedDecomposer {
    // One level: a window below B/2 is its digit. From B/2 on it stands for B less, stored as q − B more,
    // with a carry; at B the digit is 0. Stays: no Iterator: document 01 asks for a step that hands on the next;
    // it has no last level, and hands out a carry beside the digit.
    #[tactic(auto, using(crate::proofs::Steps::step_small, crate::proofs::Steps::step_top, crate::proofs::Steps::step_large))]
    pub fn step(self) -> Step
        ensures { result ≡ step_of self }
    {
        let basis = basis_within(self.log_basis);
        let v = window(self.value, self.log_basis, self.carry);
        let negative = v + u64::from(self.modulus_minus_basis);
        if v < basis / 2 {
            return self.past(v, false);
        }
        if v == basis {
            return self.past(0, true);
        }
        self.past(negative, true)
    }

    // The step past this window, with its digit as a word.
    fn past(self, digit: u64, carry: bool) -> Step
        ensures { result ≡ step_to self (digit % 2 ^ 32) carry }
    {
        let log = self.log_basis;
        let next = SignedDecomposer {
            value: above(self.value, log),
            carry,
            log_basis: log,
            modulus_minus_basis: self.modulus_minus_basis,
        };
        Step {
            digit: (digit % 0x1_0000_0000) as u32,
            carry,
            next,
        }
    }
}

// Writes the digits of one word at place i of each of the `levels` runs of `count` words.
// Stays: `levels` and `count` beside the slice: its length is their product alone.
#[tactic(auto, using(crate::proofs::Columns::after_none, crate::proofs::Columns::column_none))]
pub fn write_column(out: &mut [u32], start: SignedDecomposer, levels: usize, count: usize, i: usize)
    requires { (length out.old ≡ levels * count) × (i < count) }
    ensures { Column start levels count i out.old out.new }
{
    let mut d = start;
    for j in 0..levels {
        let s = d.step();
        out[j * count + i] = s.digit;
        d = s.next;
    }
}
