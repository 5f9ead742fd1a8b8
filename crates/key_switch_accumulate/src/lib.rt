// Rows of exact sums of 64 bits, which stand for words modulo q and are reduced late. A crate below, not for users: its steps
// have demands.
#![tactic(auto)]

ghost use Rattle.std.specs.Prelude.{◌≡◌, ◌+◌, ◌-◌, ◌*◌, ◌%◌, ◌^◌, ◌<◌, ◌≤◌, length};
ghost use mathlib.Core.List.{map, zip_with};
ghost use Rattle.key_switch_tile.specs.Rows.{Spare, Less};
ghost use Rattle.key_switch_accumulate.specs.Rows.{Roomy, Kept, addend_of};

use primus_reduce::Divisor;

// What y leaves of q, or y.
fn addend<const OPPOSITE: bool>(y: u32, q: u32) -> u32
    requires { y ≤ q }
    ensures { result ≡ addend_of OPPOSITE q y }
{
    if OPPOSITE { q - y } else { y }
}

// x + a × y
fn more(x: u64, a: u32, y: u32) -> u64
    requires { x + a * y < 2 ^ 64 }
    ensures { result ≡ x + a * y }
{
    x + u64::from(a) * u64::from(y)
}

// acc + a × (q − entry), which is acc − a × entry modulo q, or acc + a × entry
#[tactic(auto, using(scheme::proofs::InPlace::filled_start, scheme::proofs::InPlace::filled_end, scheme::proofs::InPlace::length_zip))]
fn add_multiple<const OPPOSITE: bool>(acc: &mut [u64], entry: &[u32], a: u32, q: u32)
    requires { Roomy q a acc.old entry.now }
    ensures { acc.new ≡ zip_with (λ x y. x + a * addend_of OPPOSITE q y) acc.old entry.now }
{
    for (k, x) in acc.iter_mut().enumerate() {
        let y = addend::<OPPOSITE>(entry[k], q);
        *x = more(*x, a, y);
    }
}

// acc − digit × entry modulo q. A digit from B/2 on stands for q less: its opposite is added.
pub fn accumulate_entry(acc: &mut [u64], entry: &[u32], digit: u32, half: u32, q: u32)
    requires { Spare q half (half * q) digit acc.old entry.now }
    ensures { Less q (half * q) digit entry.now acc.old acc.new }
{
    if digit < half {
        add_multiple::<true>(acc, entry, digit, q);
    } else {
        add_multiple::<false>(acc, entry, q - digit, q);
    }
}

#[tactic(auto, using(scheme::proofs::InPlace::filled_start, scheme::proofs::InPlace::filled_end, crate::proofs::Rows::mapped_length))]
fn reduce_all(acc: &mut [u64], q: Divisor)
    ensures { acc.new ≡ map (λ x. x % q.q) acc.old }
{
    for x in acc.iter_mut() {
        *x = u64::from(q.reduce(*x));
    }
}

// Reduces where the ceiling is past the limit, and answers the ceiling that then holds.
pub fn keep_room(acc: &mut [u64], ceiling: u64, limit: u64, q: Divisor) -> u64
    requires { q.q ≤ limit }
    ensures { Kept q.q ceiling limit acc.old result acc.new }
{
    if limit < ceiling {
        reduce_all(acc, q);
        u64::from(q.q)
    } else {
        ceiling
    }
}

// acc becomes `words`
#[tactic(auto, using(scheme::proofs::InPlace::filled_start, scheme::proofs::InPlace::filled_end, scheme::proofs::InPlace::filled_next))]
pub fn load(acc: &mut [u64], words: &[u32])
    requires { length acc.old ≡ length words.now }
    ensures { acc.new ≡ words.now }
{
    for (k, x) in acc.iter_mut().enumerate() {
        *x = u64::from(words[k]);
    }
}

// out becomes acc mod q. Stays beside `reduce_all`, which writes sums of 64 bits where they stand.
#[tactic(auto, using(scheme::proofs::InPlace::filled_start, scheme::proofs::InPlace::filled_end, crate::proofs::Rows::mapped_length))]
pub fn reduce_to(out: &mut [u32], acc: &[u64], q: Divisor)
    requires { length out.old ≡ length acc.now }
    ensures { out.new ≡ map (λ x. x % q.q) acc.now }
{
    for (k, x) in out.iter_mut().enumerate() {
        *x = q.reduce(acc[k]);
    }
}
