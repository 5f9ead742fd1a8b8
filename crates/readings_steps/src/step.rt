// What the bytes of one read leave: the reader after them, and what it said after each.
ghost use Rattle.std.specs.Prelude.{◌≡◌, take};
ghost use Rattle.readings_steps.specs.Steps.{ended, step_of, turns_fed};

use readings_core::Turn;
use readings_reader::Reader;

// The turn after byte i stands at place i, for up to 64 bytes.
#[derive(Clone, Copy)]
pub struct Step {
    pub reader: Reader,
    // Stays: an array and how many bytes there were: an `arrayvec::ArrayVec` is not Copy, and a step is.
    pub turns: [Turn; 64],
    pub count: usize,
}

impl Step {
    // Whether the run has ended: "After 19 it ends", and the input has ended where a read gives no byte.
    pub fn ended(&self) -> bool
        ensures { result ≡ ended self.now }
    {
        let turn = self.reader.turn;
        self.count == 0 || !turn.more
    }
}

// Feeds the bytes of one read. Places without a byte hold the turn before.
#[tactic(auto, using(crate::proofs::Fed::step_so))]
pub fn feed_all(before: Reader, bytes: &[u8]) -> Step
    ensures step { result ≡ step_of before bytes.now }
    ensures counted { take result.count result.turns ≡ take 64 (turns_fed before bytes.now) }
{
    let said = before.turn;
    let mut turns = [said; 64];
    let mut m = before;
    for (i, byte) in bytes.iter().enumerate() {
        m = m.feed(*byte);
        if i < 64 {
            turns[i] = m.turn;
        }
    }
    Step {
        reader: m,
        turns,
        count: bytes.len(),
    }
}
