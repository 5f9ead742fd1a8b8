// Compares the library's answers with data/digits.bin, which scripts/digits_vectors.py makes from the scheme's formulas alone, and
// with data/oracle.bin, which holds what the Rust answered (oracle/sample.py).
#![tactic(auto)]

mod basis;
mod bytes;
mod word;

use basis::Held;
use programs::Pieces;
use std::fmt::Write;
use std::io::Read;
use std::rt::Files;
use word::Expected;

#[derive(Clone, Copy, Default)]
struct State {
    held: Held,
    bases: u64,
    words: u64,
    wrong: u64,
}

impl State {
    fn count_basis(&mut self, right: bool) {
        self.bases = self.bases.wrapping_add(1);
        self.wrong = self.wrong.wrapping_add(u64::from(!right));
    }

    // Stays beside `count_basis`: another count, and to lend it beside `wrong` is no plainer.
    fn count_word(&mut self, right: bool) {
        self.words = self.words.wrapping_add(1);
        self.wrong = self.wrong.wrapping_add(u64::from(!right));
    }

    // A basis record; the answer is whether it is whole. One that breaks off is wrong, and where its zeros make a basis that is accepted,
    // this is held all the same.
    fn on_basis(&mut self, input: &mut impl Read) -> bool {
        let mut r = [0; 94];
        let whole = programs::read_full(input, &mut r) == r.len();
        let right = basis::compare(&r, &mut self.held);
        self.count_basis(right && whole);
        whole
    }

    // A word record, if it is whole; the answer is whether it is.
    fn on_word(&mut self, record: Option<Expected>) -> bool {
        let right = record.is_some_and(|expected| word::compare(self.held, &expected));
        self.count_word(right);
        record.is_some()
    }

    // One record, and whether there may be more. The last is a zero byte; anything else is counted as wrong.
    // Stays: a match on the file's tag, since each stands for a record of another length; and a bool, since what a record was is counted.
    fn one(&mut self, input: &mut impl Read) -> bool {
        match programs::full_record::<1>(input).map(|tag| tag[0]) {
            Some(1) => self.on_basis(input),
            Some(2) => {
                let record = programs::full_record::<85>(input);
                self.on_word(record.as_ref().map(|r| Expected::new(r)))
            }
            Some(3) => {
                let record = programs::full_record::<28>(input);
                self.on_word(record.as_ref().map(|r| Expected::short(r)))
            }
            Some(0) => false,
            _ => {
                self.count_word(false);
                false
            }
        }
    }

    // Stays, with `file`, beside those of the other vector programs: other counts, and records of another kind.
    fn all(&mut self, input: &mut impl Read) {
        for _record in 0..u64::MAX {
            if !self.one(input) {
                return;
            }
        }
    }

    // The records of a file, counted on; a file that cannot be opened is one that is wrong.
    fn file(&mut self, rt: &(impl Files + Eprint), name: &str) {
        match programs::open_named(rt, name) {
            Some(mut file) => self.all(&mut file),
            None => self.count_word(false),
        }
    }
}

fn main(rt: HostRuntime) {
    let mut s = State::default();
    s.file(&rt, "digits.bin");
    s.file(&rt, "oracle.bin");
    let mut out = Pieces(&rt);
    let _ = writeln!(out, "bases {}", s.bases);
    let _ = writeln!(out, "words {}", s.words);
    let _ = writeln!(out, "wrong {}", s.wrong);
}
