// The kernel for the native modulus, 2^32: words add and multiply with wrap, on purpose.
// A crate below, not for users: its call has demands.
#![tactic(auto)]

ghost use Rattle.std.specs.Prelude.{◌≡◌, ◌+◌, ◌-◌, ◌*◌, ◌^◌, length, map};
ghost use Rattle.primus_reduce.specs.declared.modulus.Modulus.TheVariants.{Native};
ghost use Rattle.key_switch_tile.specs.Rows.{Less};
ghost use Rattle.key_switch_tile.specs.Switched.{switched_tile};

use key_switch_tile::{Kernel, Tile};

// row − digit × entry
fn take_multiple(row: &mut [u32], entry: &[u32], digit: u32)
    requires { length row.old ≡ length entry.now }
    ensures { Less (2 ^ 32) (2 ^ 32 - 1) digit entry.now (map (λ x. x) row.old) (map (λ x. x) row.new) }
{
    for (k, x) in row.iter_mut().enumerate() {
        *x = x.wrapping_sub(digit.wrapping_mul(entry[k]));
    }
}

// Words are their own accumulators.
struct NativeKernel;

impl Kernel for NativeKernel {
    type Word = u32;

    ghost number = { λ x. x };

    ghost ring = { λ _. 2 ^ 32 };

    ghost near = { λ _. 2 ^ 31 };

    ghost growth = { λ _. 2 ^ 32 - 1 };

    // Stays: an arm for each small digit, whose multiples compile to shifts and sums: a batch takes 0.63 of the Rust, with one multiply 0.84,
    // and the bar is the release before, 0.66.
    fn take_away(&self, row: &mut [u32], entry: &[u32], digit: u32) {
        match digit {
            0 => {}
            1 => take_multiple(row, entry, 1),
            2 => take_multiple(row, entry, 2),
            3 => take_multiple(row, entry, 3),
            4 => take_multiple(row, entry, 4),
            5 => take_multiple(row, entry, 5),
            6 => take_multiple(row, entry, 6),
            7 => take_multiple(row, entry, 7),
            0xffff_ffff => take_multiple(row, entry, 0xffff_ffff),
            0xffff_fffe => take_multiple(row, entry, 0xffff_fffe),
            0xffff_fffd => take_multiple(row, entry, 0xffff_fffd),
            0xffff_fffc => take_multiple(row, entry, 0xffff_fffc),
            0xffff_fffb => take_multiple(row, entry, 0xffff_fffb),
            0xffff_fffa => take_multiple(row, entry, 0xffff_fffa),
            0xffff_fff9 => take_multiple(row, entry, 0xffff_fff9),
            0xffff_fff8 => take_multiple(row, entry, 0xffff_fff8),
            _ => take_multiple(row, entry, digit),
        }
    }
}

// Switches the rows; the output is its own accumulator.
// Stays beside that of key_switch_explicit, which needs room for its sums and keeps it from running over.
pub fn switch_tile(out: &mut [u32], tile: Tile)
    requires { (tile.shape.basis.modulus ≡ Native) × (length out.old ≡ tile.rows * (tile.shape.m + 1)) }
    ensures { out.new ≡ switched_tile tile.entry }
{
    tile.start(out);
    for i in 0..tile.shape.n {
        let lanes = tile.lanes(i);
        tile.place(&NativeKernel, out, i, lanes);
    }
}
