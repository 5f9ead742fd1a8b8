// What the programs share: a file read whole, a record and what stands in it, words compared, a number among the arguments.
#![tactic(auto)]

ghost use Rattle.std.specs.Prelude.{◌≤◌, IfSome, IsOk, length};

use primus_encoding::PlaintextEmbedding;
use primus_reduce::Modulus;
use std::env::{Env, FillError};
use std::io::Read;
use std::rt::Files;
use std::{fmt, fs};

// Text as it stands; a write that fails is passed over.
pub fn write(rt: &impl Print, text: &[u8]) {
    let _ = rt.write_all(text);
}

pub fn print(rt: &impl Print, label: &[u8], number: u64) {
    write(rt, label);
    let _ = print!(rt; "{number}");
}

// A line.
pub fn say(rt: &impl Print, label: &[u8], number: u64) {
    print(rt, label, number);
    write(rt, b"\n");
}

// A writer of text piece by piece, each by a write of its own: one that fails is passed over, and the next is tried. So a line
// ends where there is room for its newline alone.
#[derive(Drop)]
pub struct Pieces<'a, R>(pub &'a R);

impl<R: Print> fmt::Write for Pieces<'_, R> {
    fn write_str(&mut self, s: &str) -> fmt::Result
        ensures goes_on { IsOk result }
    {
        write(self.0, s.as_bytes());
        Ok(())
    }
}

// A file to read; where it cannot be opened, standard error says why.
// No clause, since `fs::open` has none: which file a name opens, and when it opens, no contract can say.
pub fn open_named<R: Files + Eprint>(rt: &R, name: &str) -> Option<R::File> {
    match fs::open(rt, name) {
        Ok(file) => Some(file),
        Err(e) => {
            let _ = eprintln!(rt; "{name}: {e}");
            None
        }
    }
}

// The same under a name of any bytes: bytes that are no text name no file.
pub fn open<R: Files + Eprint>(rt: &R, path: &[u8]) -> Option<R::File> {
    open_named(rt, str::from_utf8(path).ok()?)
}

// One read. Stays: no Result: one that fails gives no byte, and `read_full` would turn it into 0 all the same.
pub fn read_some(input: &mut impl Read, bytes: &mut [u8]) -> usize
    ensures { result ≤ length bytes.new }
{
    input.read(bytes).unwrap_or(0)
}

// Reads until there is no room, the input ends or a read fails: how many bytes stand at the start.
// Stays: a while that counts the bytes that came; `read_exact` says nothing of them where the input ends early.
pub fn read_full(input: &mut impl Read, bytes: &mut [u8]) -> usize
    ensures { result ≤ length bytes.new }
{
    let mut done = 0;
    while done < bytes.len() {
        let n = read_some(input, &mut bytes[done..]);
        if n == 0 {
            return done;
        }
        done += n;
    }
    done
}

// The N bytes of a record; none where the input ends, or a read fails, before. One that is interrupted is tried again.
pub fn record<const N: usize>(input: &mut impl Read) -> Option<[u8; N]> {
    let mut bytes = [0; N];
    input.read_exact(&mut bytes).ok()?;
    Some(bytes)
}

// The same, but a read that is interrupted ends it too: so the programs read.
// Stays: no `read_exact`, which goes on where a read is interrupted.
pub fn full_record<const N: usize>(input: &mut impl Read) -> Option<[u8; N]> {
    let mut bytes = [0; N];
    if read_full(input, &mut bytes) < N {
        return None;
    }
    Some(bytes)
}

// The first bytes of a file, as many as there is room for; none where it cannot be opened.
pub fn read_file<'a>(
    rt: &(impl Files + Eprint),
    path: &[u8],
    room: &'a mut [u8],
) -> Option<&'a [u8]>
    ensures { IfSome result (λ bytes. length bytes.now ≤ length room.old) }
{
    let mut file = open(rt, path)?;
    let len = read_full(&mut file, room);
    Some(&room[..len])
}

// How many bytes of a file there was room for; 0 where it cannot be opened.
pub fn read(rt: &(impl Files + Eprint), path: &[u8], bytes: &mut [u8]) -> usize
    ensures { result ≤ length bytes.new }
{
    match open(rt, path) {
        Some(mut file) => read_full(&mut file, bytes),
        None => 0,
    }
}

// A modulus of a record: a byte that is 0 for the native one, then its number.
pub fn modulus_at(record: &[u8], at: usize) -> Modulus {
    if little_endian::u8_at(record, at) == 0 {
        return Modulus::Native;
    }
    Modulus::Explicit(little_endian::u32_at(record, at.wrapping_add(1)))
}

// An embedding of a record: a byte that is 0 for Unsigned.
pub fn embedding_at(record: &[u8], at: usize) -> PlaintextEmbedding {
    match little_endian::u8_at(record, at) {
        0 => PlaintextEmbedding::Unsigned,
        _ => PlaintextEmbedding::Centered,
    }
}

// The smaller of two lengths: a part of so many words is there, and the call that takes it judges whether they are enough.
pub fn at_most(len: usize, most: usize) -> usize
    ensures { result ≤ most }
{
    len.min(most)
}

// The first `count` words are the same; there are that many in both.
// Stays: a count beside the words: it is a head's, and a file may hold fewer.
pub fn same(x: &[u32], y: &[u32], count: usize) -> bool {
    match (x.get(..count), y.get(..count)) {
        (Some(x), Some(y)) => x == y,
        _ => false,
    }
}

fn number_of(digits: &[u8]) -> Option<u32> {
    match str::from_utf8(digits) {
        Ok(text) => text.parse().ok(),
        Err(_) => None,
    }
}

// Argument i, a decimal number of 32 bits; where it is not there, what stands for it.
pub fn argument(rt: &impl Env, i: usize, otherwise: Option<u32>) -> Option<u32> {
    let mut room = [0u8; 32];
    match rt.arg(i, &mut room) {
        Ok(len) => number_of(&room[..len]),
        Err(FillError::TooLong) => None,
        Err(FillError::NotPresent) => otherwise,
    }
}

#[cfg(test)]
mod tests {
    use super::*;
    use std::io;
    use std::io::ErrorKind;

    // Bytes from 1 on, as many as are left; its first read may be interrupted.
    #[derive(Drop)]
    struct Source {
        interrupted: bool,
        given: u8,
        left: u8,
    }

    impl Read for Source {
        fn read(&mut self, buf: &mut [u8]) -> io::Result<usize> {
            if self.interrupted {
                self.interrupted = false;
                return Err(io::Error::from(ErrorKind::Interrupted));
            }
            let Some(place) = buf.first_mut() else {
                return Ok(0);
            };
            let Some(left) = self.left.checked_sub(1) else {
                return Ok(0);
            };
            self.left = left;
            self.given = self.given.wrapping_add(1);
            *place = self.given;
            Ok(1)
        }
    }

    fn input(interrupted: bool, left: u8) -> Source {
        Source {
            interrupted,
            given: 0,
            left,
        }
    }

    #[test]
    fn records(rt: HostRuntime) {
        assert_eq!(rt; record::<4>(&mut input(false, 4)), Some([1, 2, 3, 4]));
        assert_eq!(rt; record::<4>(&mut input(true, 4)), Some([1, 2, 3, 4]));
        assert_eq!(rt; record::<4>(&mut input(true, 3)), None);
        assert_eq!(rt; full_record::<4>(&mut input(false, 4)), Some([1, 2, 3, 4]));
        assert_eq!(rt; full_record::<4>(&mut input(false, 3)), None);
        assert_eq!(rt; full_record::<4>(&mut input(true, 4)), None);
    }
}
