// Words written where a call has room for them. A crate below, not for users: its call has a demand.
#![tactic(auto)]

ghost use Rattle.std.specs.Prelude.{◌≡◌, length};

// out becomes `words`.
// Stays: a loop: `copy_from_slice` makes the library for C ask for a `memmove`, and it asks for `memset` alone.
#[tactic(auto, using(scheme::proofs::InPlace::filled_start, scheme::proofs::InPlace::filled_end))]
pub fn copy_words(out: &mut [u32], words: &[u32])
    requires { length out.old ≡ length words.now }
    ensures { out.new ≡ words.now }
{
    for (k, x) in out.iter_mut().enumerate() {
        *x = words[k];
    }
}
