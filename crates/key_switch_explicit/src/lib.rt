// The kernel for an explicit modulus: exact sums, reduced late. A crate below, not for users: its call has demands.
#![tactic(auto)]

ghost use Rattle.std.specs.Prelude.{◌≡◌, ◌+◌, ◌-◌, ◌*◌, ◌/◌, ◌^◌, ◌<◌, ◌≤◌, length};
ghost use Rattle.primus_reduce.specs.declared.modulus.Modulus.TheVariants.{Explicit};
ghost use Rattle.key_switch_tile.specs.Switched.{begun_tile, ReachedBy, switched_tile};

use key_switch_tile::{Kernel, Tile};
use primus_reduce::Divisor;

// Exact sums of 64 bits, for a basis with this half and this modulus.
#[derive(Clone, Copy)]
struct ExplicitKernel {
    half: u32,
    q: Divisor,
}

impl Kernel for ExplicitKernel {
    type Word = u64;

    ghost number = { λ x. x };

    ghost ring = { λ k. k.q.q };

    ghost near = { λ k. k.half };

    ghost growth = { λ k. k.half * k.q.q };

    fn take_away(&self, row: &mut [u64], entry: &[u32], digit: u32) {
        key_switch_accumulate::accumulate_entry(row, entry, digit, self.half, self.q.q);
    }
}

// B / 2. Stays beside `error_bound` of gadget_constants: the same shift, of what is no error.
fn half_of(log: u32) -> u32
    requires { (2 ≤ log) × (log < 32) }
    ensures { result ≡ 2 ^ log / 2 }
{
    1 << (log - 1)
}

// L × (B / 2) × q: the most that a place adds to an accumulator
fn cost_of(levels: usize, half: u32, q: u32) -> u64
    requires { (1 ≤ levels) × (levels * (half * q) < 2 ^ 64) }
    ensures { result ≡ levels * (half * q) }
{
    levels as u64 * (u64::from(half) * u64::from(q))
}

// The rows go through all n places. No accumulator is above `ceiling`.
fn walk(acc: &mut [u64], tile: Tile, q: Divisor)
    requires { (tile.shape.basis.modulus ≡ Explicit q.q) × (acc.old ≡ begun_tile tile) }
    ensures { ReachedBy tile.entry tile.entry.shape.n acc.new }
{
    let s = tile.shape;
    let half = half_of(s.basis.log_basis);
    let kernel = ExplicitKernel { half, q };
    let cost = cost_of(s.basis.level_count, half, q.q);
    let limit = u64::MAX - cost;
    let mut ceiling = u64::from(q.q);
    for i in 0..s.n {
        ceiling = key_switch_accumulate::keep_room(acc, ceiling, limit, q);
        let lanes = tile.lanes(i);
        tile.place(&kernel, acc, i, lanes);
        ceiling += cost;
    }
}

// Switches the rows; acc is room for their accumulators.
// Stays beside that of key_switch_native, whose words are their own accumulators.
pub fn switch_tile(acc: &mut [u64], out: &mut [u32], tile: Tile, q: Divisor)
    requires { (tile.shape.basis.modulus ≡ Explicit q.q) × (length acc.old ≡ tile.rows * (tile.shape.m + 1))
        × (length out.old ≡ tile.rows * (tile.shape.m + 1)) }
    ensures { out.new ≡ switched_tile tile.entry }
{
    tile.start(out);
    key_switch_accumulate::load(acc, out);
    walk(acc, tile, q);
    key_switch_accumulate::reduce_to(out, acc, q);
}
