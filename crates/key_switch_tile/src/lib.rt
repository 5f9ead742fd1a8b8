// A tile of up to eight ciphertexts, as both kernels switch it: its lanes, its beginning, and one mask place of it.
// A crate below, not for users: its calls have demands.
#![tactic(auto)]

ghost use Rattle.std.specs.Prelude.{ℕ, map};
ghost use Rattle.key_switch_tile.specs.Rows.{Spare, Less};

mod tile;

use gadget_constants::PreparedBasis;
pub use tile::Tile;

// The most ciphertexts that go through the key together.
pub const TILE: usize = 8;

// What a batch is switched by: the dimensions of its input and of its output, and the basis.
#[derive(Clone, Copy)]
pub struct Shape {
    pub n: usize,
    pub m: usize,
    pub basis: PreparedBasis,
}

// The accumulators of a modulus, and how a row of them loses a multiple of an entry.
// Stays: row, entry and digit, what one product is of: a struct of them would be made for each and taken apart at once.
pub trait Kernel {
    type Word;

    ghost number: { Self.Word → ℕ };

    ghost ring: { Self → ℕ };

    ghost near: { Self → ℕ };

    ghost growth: { Self → ℕ };

    fn take_away(&self, row: &mut [Self::Word], entry: &[u32], digit: u32)
        requires { Spare (ring self.now) (near self.now) (growth self.now) digit (map number row.old) entry.now }
        ensures { Less (ring self.now) (growth self.now) digit entry.now (map number row.old) (map number row.new) };
}
