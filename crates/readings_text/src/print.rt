// Answers as lines. That a line has the digits and the words of its answer is tested, not proved. A write that fails is passed over.
use crate::pieces::Pieces;
use check_order::Refusal;
use readings_core::{Reply, Turn};
use std::fmt;
use std::io::Write;

// Stays: a refusal's number alone: document 01 has no words in a line.
fn write_reply(out: &mut impl fmt::Write, reply: Result<Reply, Refusal>) -> fmt::Result {
    match reply {
        Ok(reply) => write!(out, "{reply}"),
        Err(refusal) => {
            write!(out, "refused")?;
            write!(out, " {}", u32::from(refusal))
        }
    }
}

// No line where there is nothing to say. The end of the line is written by itself, whatever became of the rest.
pub fn print_turn(out: &mut impl Write, t: Turn) {
    let Some(reply) = t.reply else {
        return;
    };
    let _ = write_reply(&mut Pieces::new(out), reply);
    let _ = out.write_all(b"\n");
}

// The turns, in order.
pub fn print_turns(out: &mut impl Write, turns: &[Turn]) {
    for t in turns {
        print_turn(out, *t);
    }
}
