// Compares counts of words by their digits with data/counts.bin, which scripts/count_vectors.py makes by counting the words one by one.
#![tactic(auto)]

mod counts;

use counts::Expected;
use std::io::Read;
use std::rt::Files;

#[derive(Clone, Copy, Default)]
struct State {
    counted: u64,
    refused: u64,
    wrong: u64,
}

impl State {
    fn compare(&mut self, expected: &Expected) {
        self.counted = self.counted.wrapping_add(u64::from(!expected.is_refused()));
        self.refused = self.refused.wrapping_add(u64::from(expected.is_refused()));
        self.wrong = self.wrong.wrapping_add(u64::from(!counts::agree(expected)));
    }

    fn fail(&mut self) {
        self.wrong = self.wrong.wrapping_add(1);
    }

    // A record, if it is whole; the answer is whether it is.
    fn on_record(&mut self, record: Option<Expected>) -> bool {
        match record {
            Some(expected) => self.compare(&expected),
            None => self.fail(),
        }
        record.is_some()
    }

    // One record, and whether there may be more. The last is a zero byte; anything else is counted as wrong.
    // Stays: a match on the file's tag, since each stands for a record of another length; and a bool, since what a record was is counted.
    fn one(&mut self, input: &mut impl Read) -> bool {
        match programs::full_record::<1>(input).map(|tag| tag[0]) {
            Some(1) => {
                let record = programs::full_record::<82>(input);
                self.on_record(record.as_ref().map(|r| Expected::new(r)))
            }
            Some(2) => {
                let record = programs::full_record::<26>(input);
                self.on_record(record.as_ref().map(|r| Expected::short(r)))
            }
            Some(0) => false,
            _ => {
                self.fail();
                false
            }
        }
    }

    // Stays, with `file`, beside those of the other vector programs: other counts, and records of another kind.
    fn all(&mut self, input: &mut impl Read) {
        for _record in 0..u64::MAX {
            if !self.one(input) {
                return;
            }
        }
    }

    // The records of the file; one that cannot be opened is wrong.
    fn file(&mut self, rt: &(impl Files + Eprint)) {
        match programs::open_named(rt, "counts.bin") {
            Some(mut file) => self.all(&mut file),
            None => self.fail(),
        }
    }
}

fn main(rt: HostRuntime) {
    let mut s = State::default();
    s.file(&rt);
    let _ = println!(&rt;
        "counted {}\nrefused {}\nwrong {}",
        s.counted, s.refused, s.wrong
    );
}
