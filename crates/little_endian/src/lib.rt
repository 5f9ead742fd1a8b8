// Little-endian numbers in a run of bytes, as operands and stored files have them. Past the end every byte is 0.
// Stays: bytes and a place: it is no length of them, and a struct would be made for each number.
#![tactic(auto)]

ghost use Rattle.std.specs.Prelude.{◌≡◌, ◌<◌, ℕ, ◌+◌, drop, get_or};
ghost use Rattle.little_endian.specs.Bytes.{word32, word64};

// Byte i. Stays: no Option: past the end every byte is 0, as docs/CALLS.md says.
fn byte(s: &[u8], i: usize) -> u8
    ensures { result ≡ get_or s.now i 0 }
{
    s.get(i).copied().unwrap_or(0)
}

// The same as a number.
pub fn u8_at(s: &[u8], i: usize) -> u32
    ensures { (result ≡ get_or s.now i 0) × (result < 256) }
{
    u32::from(byte(s, i))
}

// What stands from i on.
fn rest_of(s: &[u8], i: usize) -> &[u8]
    ensures { result.now ≡ drop i s.now }
{
    s.get(i..).unwrap_or(&[])
}

// The first N bytes of a run that may have fewer.
#[tactic(auto, using(crate::proofs::Laws::padded))]
fn cut_off<const N: usize>(rest: &[u8]) -> [u8; N]
    ensures { (k : ℕ) → k < N → get_or result k 0 ≡ get_or rest.now k 0 }
{
    let n = rest.len().min(N);
    let mut bytes = [0; N];
    bytes[..n].copy_from_slice(&rest[..n]);
    bytes
}

// N bytes from i on: where they are all there, in one load.
#[tactic(auto, using(crate::proofs::Laws::whole, crate::proofs::Laws::from_there))]
fn bytes_at<const N: usize>(s: &[u8], i: usize) -> [u8; N]
    ensures { (k : ℕ) → k < N → get_or result k 0 ≡ get_or s.now (i + k) 0 }
{
    let rest = rest_of(s, i);
    match rest.first_chunk::<N>() {
        Some(bytes) => *bytes,
        None if rest.is_empty() => [0; N],
        None => cut_off(rest),
    }
}

// Four bytes from i on. Stays beside `u64_at`: a trait over two widths is no plainer than two lines.
#[tactic(auto, using(crate::proofs::Laws::is_word32))]
pub fn u32_at(s: &[u8], i: usize) -> u32
    ensures { result ≡ word32 s.now i }
{
    u32::from_le_bytes(bytes_at(s, i))
}

// Eight bytes from i on.
#[tactic(auto, using(crate::proofs::Laws::is_word64))]
pub fn u64_at(s: &[u8], i: usize) -> u64
    ensures { result ≡ word64 s.now i }
{
    u64::from_le_bytes(bytes_at(s, i))
}
