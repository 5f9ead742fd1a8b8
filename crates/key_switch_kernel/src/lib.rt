// Batches, a tile at a time, each by the kernel of its modulus. A crate below, not for users: its call has demands.
#![tactic(auto)]

ghost use Rattle.std.specs.Prelude.{◌≡◌, ◌+◌, ◌*◌, length};
ghost use Rattle.scheme.specs.Switch.{switched_batch};
ghost use Rattle.gadget_constants.specs.Prepared.{basis_in};
ghost use Rattle.key_switch_tile.specs.Switched.{switched_tile};
ghost use Rattle.key_switch_tile.specs.Tile.{Shaped};

use key_switch_tile::{Shape, TILE, Tile};
use primus_lattice::LweDimension;
use primus_reduce::{Divisor, Modulus};

// Room for the accumulators of a tile, each row of the largest dimension and a body. Stays: fixed memory, with no heap, cut to what is used.
const ACCUMULATORS: usize = TILE * (LweDimension::MAX + 1);

// One tile; acc is room for the accumulators of an explicit modulus. Stays: a match: only one kernel needs that room.
fn switch_tile(acc: &mut [u64], out: &mut [u32], tile: Tile)
    requires { (length acc.old ≡ tile.rows * (tile.shape.m + 1)) × (length out.old ≡ tile.rows * (tile.shape.m + 1)) }
    ensures { out.new ≡ switched_tile tile.entry }
{
    match tile.shape.basis.modulus {
        Modulus::Native => key_switch_native::switch_tile(out, tile),
        Modulus::Explicit(q) => key_switch_explicit::switch_tile(acc, out, tile, Divisor { q }),
    }
}

// Switches `count` ciphertexts. The accumulators are made once, for every tile.
// Stays: `count`: from a length it is a quotient by n + 1, whose proof that it comes out even the caller has made already.
pub fn switch_tiles(out: &mut [u32], input: &[u32], key: &[u32], count: usize, shape: Shape)
    requires { Shaped shape.basis shape.n shape.m count input.now key.now × (length out.old ≡ count * (shape.m + 1)) }
    ensures { out.new ≡ switched_batch (basis_in shape.basis) shape.n shape.m key.now count input.now }
{
    let mut acc = [0u64; ACCUMULATORS];
    for u in 0..count.div_ceil(TILE) {
        let done = u * TILE;
        let rows = (count - done).min(TILE);
        let room = rows * (shape.m + 1);
        let from = done * (shape.m + 1);
        let to = from + room;
        let first = done * (shape.n + 1);
        let last = first + rows * (shape.n + 1);
        let tile = Tile {
            input: &input[first..last],
            key,
            rows,
            shape,
        };
        switch_tile(&mut acc[..room], &mut out[from..to], tile);
    }
}
