// The program of readings over a reader and a writer. What each read leaves and where the reads end is proved; reading and printing are not.
#![tactic(auto)]

ghost use Rattle.std.specs.Prelude.{◌≡◌};
ghost use Rattle.readings_reader.specs.Run.{finished};
ghost use Rattle.readings_files.specs.Runs.{Stepped, Ran};

use readings_core::Turn;
use readings_reader::Reader;
use readings_steps::Step;
use std::io::{Read, Write};

// One read of up to 64 bytes; prints the turns that it leaves.
// Stays: a read that fails gives no byte: the input ends there.
fn read_some(before: Reader, input: &mut impl Read, output: &mut impl Write) -> Step
    ensures { Stepped before result }
{
    let mut bytes = [0u8; 64];
    let n = input.read(&mut bytes).unwrap_or(0);
    let s = readings_steps::feed_all(before, &bytes[..n]);
    let turns = &s.turns;
    readings_text::print_turns(output, &turns[..s.count]);
    s
}

fn last(m: Reader, output: &mut impl Write) -> Turn
    ensures { result ≡ finished m }
{
    let t = m.finish();
    readings_text::print_turn(output, t);
    t
}

// Commands until the input ends or 19 ends it; the answer is the last one. The language asks for a bound on the reads: 2^64 − 1.
#[tactic(auto, using(crate::proofs::Runs::begin, crate::proofs::Runs::again))]
pub fn run(input: &mut impl Read, output: &mut impl Write) -> Turn
    ensures { Ran result }
{
    let mut m = Reader::new();
    for _read in 0..u64::MAX {
        let s = read_some(m, input, output);
        m = s.reader;
        if s.ended() {
            return last(m, output);
        }
    }
    last(m, output)
}
