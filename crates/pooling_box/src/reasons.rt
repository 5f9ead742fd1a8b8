// The refusals in words.
use check_order::Refusal;
use programs::Pieces;
use saved_files::Stored;
use std::fmt::Write;

// The number, and in words what it stands for.
pub(crate) fn refused(rt: &impl Print, reason: Refusal) {
    let _ = writeln!(Pieces(rt), "refused {reason}");
}

// A name, and what became of it.
pub(crate) fn told(rt: &impl Print, name: &str, answer: Result<(), Refusal>) {
    let _ = write!(Pieces(rt), "{name}: ");
    match answer {
        Ok(()) => {
            let _ = println!(rt; "accepted");
        }
        Err(reason) => refused(rt, reason),
    }
}

// What became of a file: for 19, in words, what stands under its name. Stays: 19 is written out: its
// Display would say `an unknown command` too.
pub(crate) fn told_file(rt: &impl Print, name: &str, answer: Result<(), Refusal>, stored: Stored) {
    if answer == Err(Refusal::Unreadable) {
        let _ = write!(Pieces(rt), "{name}: refused 19: ");
        // One write with its newline.
        let _ = println!(rt; "{stored}");
        return;
    }
    told(rt, name, answer);
}
