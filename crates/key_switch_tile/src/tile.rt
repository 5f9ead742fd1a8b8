// A tile: up to eight ciphertexts, and the key that they go through together.
ghost use Rattle.std.specs.Prelude.{◌≡◌, ◌-◌, ◌<◌, ◌≤◌, eqb, length};
ghost use Rattle.scheme.specs.Numbers.{pick, tabulate};
ghost use Rattle.key_switch_tile.specs.Tile.{tile, Shaped};

use crate::{Kernel, Shape, TILE};
use gadget_digits::SignedDecomposer;

// `rows` ciphertexts and a key of this shape, as a switch has judged them.
// Stays: rows beside their words: from a length they are a quotient by n + 1, which the caller has and each method would take again.
#[derive(Clone, Copy)]
pub struct Tile<'a> {
    pub input: &'a [u32],
    pub key: &'a [u32],
    pub rows: usize,
    pub shape: Shape,
    ghost few: { rows ≤ tile },
    ghost shaped: { Shaped shape.basis shape.n shape.m rows input.now key.now },
}

// (0, b)
fn start_row(out: &mut [u32], body: u32)
    requires { 0 < length out.old }
    ensures { out.new ≡ tabulate (length out.old) (λ c. pick (eqb c (length out.old - 1)) body 0) }
{
    let last = out.len() - 1;
    out.fill(0);
    out[last] = body;
}

// Stays: the length of `out` and `acc` is required, in the kernels too: the language takes no ghost field beside a `&mut`.
impl<'a> Tile<'a> {
    ghost use Rattle.std.specs.Prelude.{◌+◌, ◌*◌, map};
    ghost use Rattle.key_switch_tile.specs.Switched.{LanesOf, begun_tile, ReachedBy, FitsTile, GrownBy};
    ghost use Rattle.key_switch_tile.specs.Tile.{LevelRoom, Leveled};

    // The lanes of mask place i: the decomposer of each row's word. None is kept from the place before.
    // Stays: fixed memory, of which the lanes past the rows are never read, and a loop over the rows alone.
    pub fn lanes(self, i: usize) -> [SignedDecomposer; TILE]
        requires { i < self.shape.n }
        ensures { LanesOf self.entry i result }
    {
        let none = SignedDecomposer {
            value: 0,
            carry: false,
            log_basis: 0,
            modulus_minus_basis: 0,
        };
        let mut lanes = [none; TILE];
        for t in 0..self.rows {
            let at = t * (self.shape.n + 1) + i;
            lanes[t] = self.shape.basis.decomposer(self.input[at]);
        }
        lanes
    }

    // Each row becomes (0, b).
    pub fn start(self, out: &mut [u32])
        requires { length out.old ≡ self.rows * (self.shape.m + 1) }
        ensures { out.new ≡ begun_tile self.entry }
    {
        let n = self.shape.n;
        let width = self.shape.m + 1;
        for t in 0..self.rows {
            let from = t * width;
            let to = from + width;
            start_row(&mut out[from..to], self.input[t * (n + 1) + n]);
        }
    }

    // One level of one place: each row loses its own digit times the entry, and its lane moves on.
    // Inlined, as `place` is: else a Tile is copied at each call, and a batch takes 1 to 2 % more.
    #[inline(always)]
    fn level<K: Kernel>(
        self,
        kernel: &K,
        acc: &mut [K::Word],
        entry: &[u32],
        lanes: &mut [SignedDecomposer; TILE],
    )
        requires { (length entry.now ≡ self.shape.m + 1) × (length acc.old ≡ self.rows * (self.shape.m + 1))
            × LevelRoom (K.ring kernel.now) (K.near kernel.now) (K.growth kernel.now) (self.shape.m + 1) self.rows
            lanes.old entry.now (map K.number acc.old) }
        ensures { Leveled (K.ring kernel.now) (K.growth kernel.now) (self.entry.shape.m + 1) self.entry.rows entry.now
            lanes.old (map K.number acc.old) lanes.new (map K.number acc.new) }
    {
        let width = self.shape.m + 1;
        for t in 0..self.rows {
            let step = lanes[t].step();
            let at = t * width;
            let end = at + width;
            kernel.take_away(&mut acc[at..end], entry, step.digit);
            lanes[t] = step.next;
        }
    }

    // Mask place i: each row loses its L digits times the L entries of the place.
    #[inline(always)]
    pub fn place<K: Kernel>(
        self,
        kernel: &K,
        acc: &mut [K::Word],
        i: usize,
        mut lanes: [SignedDecomposer; TILE],
    )
        requires { (i < self.shape.n) × LanesOf self i lanes × ReachedBy self i (map K.number acc.old)
            × FitsTile self (K.ring kernel.now) (K.near kernel.now) (K.growth kernel.now) (map K.number acc.old) }
        ensures { ReachedBy self.entry (i + 1) (map K.number acc.new)
            × GrownBy self.entry (K.growth kernel.now) (map K.number acc.old) (map K.number acc.new) }
    {
        let levels = self.shape.basis.level_count;
        let width = self.shape.m + 1;
        let start = i * (levels * width);
        for j in 0..levels {
            let at = start + j * width;
            let end = at + width;
            self.level(kernel, acc, &self.key[at..end], &mut lanes);
        }
    }
}
