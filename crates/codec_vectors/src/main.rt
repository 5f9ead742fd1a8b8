// Compares the codec with data/codec.bin, which scripts/codec_vectors.py makes from the scheme's definitions and describes, and
// with data/oracle.bin, which holds what the Rust answered (oracle/sample.py).
#![tactic(auto)]

mod bytes;
mod slices;
mod values;

use programs::{Pieces, full_record};
use std::fmt::Write;
use std::io::Read;
use std::rt::Files;

// Records compared, those that differ, and the first of these, counted from 0.
#[derive(Clone, Copy, Default)]
struct Score {
    compared: u32,
    wrong: u32,
    first: Option<u32>,
}

impl Score {
    // One record more. A count that is full stays.
    fn counted(self, right: bool) -> Score {
        let Some(compared) = self.compared.checked_add(1) else {
            return self;
        };
        if right {
            return Score { compared, ..self };
        }
        Score {
            compared,
            wrong: self.wrong.saturating_add(1),
            first: self.first.or(Some(self.compared)),
        }
    }
}

// What stands next in a file: a record and whether the codec answers as it says, or the file's end.
// Stays: an enum of three: an end is no fault, and a record that differs is none either.
enum Next {
    Record(bool),
    End,
    // No end record, or another tag.
    Broken,
}

// Stays: a match on the file's tag: each stands for a record of another length.
fn turn(input: &mut impl Read) -> Next {
    match full_record::<1>(input).map(|tag| tag[0]) {
        Some(0) => Next::End,
        Some(1) => Next::Record(full_record::<37>(input).is_some_and(|r| values::right(&r))),
        Some(2) => Next::Record(full_record::<86>(input).is_some_and(|r| slices::right(&r))),
        _ => Next::Broken,
    }
}

fn all(input: &mut impl Read, before: Score) -> Score {
    let mut s = before;
    for _ in 0..u64::MAX {
        match turn(input) {
            Next::Record(right) => s = s.counted(right),
            Next::End => return s,
            Next::Broken => return s.counted(false),
        }
    }
    s
}

// The records of a file, counted on; a file that cannot be opened is one that differs.
fn file(rt: &(impl Files + Eprint), name: &str, s: Score) -> Score {
    match programs::open_named(rt, name) {
        Some(mut file) => all(&mut file, s),
        None => s.counted(false),
    }
}

fn main(rt: HostRuntime) {
    let made = file(&rt, "codec.bin", Score::default());
    let s = file(&rt, "oracle.bin", made);
    let mut out = Pieces(&rt);
    let _ = writeln!(out, "compared {}", s.compared);
    let _ = writeln!(out, "wrong {}", s.wrong);
    if let Some(first) = s.first {
        let _ = writeln!(out, "first wrong {first}");
    }
}
