// What a basis and a word answer, and what they leave for the next command.
ghost use Rattle.std.specs.Prelude.{◌≡◌};
ghost use Rattle.readings_core.specs.Program.{basis_line, go, over, silent, basis_turn, read_word, word_turn};

use check_order::Refusal;
use primus_decompose::ApproxSignedBasis;
use std::fmt;

// The basis that was accepted last, if any.
pub type Session = Option<ApproxSignedBasis>;

// `basis` q (0 = native) k base-log L d H T
#[derive(Clone, Copy)]
pub struct BasisReply {
    pub modulus: u32,
    pub value_bits: u32,
    pub log_basis: u32,
    pub level_count: usize,
    pub drop_bits: u32,
    pub error_bound: u32,
    pub threshold: u32,
}

// `word` a reading ε digits: the digits are the first `level_count`, lowest first.
#[derive(Clone, Copy)]
pub struct WordReply {
    pub word: u32,
    pub reading: i64,
    pub error: i64,
    // Stays: an array and how much of it counts: a turn stands in the reader and among the turns of its read, and the clone of an
    // `arrayvec::ArrayVec`, which is not Copy, answers a Result for a failure that numbers cannot have.
    pub digits: [i64; 16],
    pub level_count: usize,
}

#[derive(Clone, Copy)]
pub enum Reply {
    Basis(BasisReply),
    Word(WordReply),
}

// An answer, or no line; the session after it, and whether the program goes on.
#[derive(Clone, Copy, Default)]
pub struct Turn {
    pub reply: Option<Result<Reply, Refusal>>,
    pub session: Session,
    // Stays: a fact of its own, and no flag of a value beside it: the other fields hold either way.
    pub more: bool,
}

// Stays: three makers: `next` and `end` fix `more`, `end` and `quiet` the reply; one would be given both at each call.
impl Turn {
    // An answer after which the program goes on.
    pub fn next(reply: Result<Reply, Refusal>, session: Session) -> Turn
        ensures { result ≡ go reply session }
    {
        Turn {
            reply: Some(reply),
            session,
            more: true,
        }
    }

    // 19, and the end.
    pub fn end(session: Session) -> Turn
        ensures { result ≡ over session }
    {
        Turn {
            reply: Some(Err(Refusal::Unreadable)),
            session,
            more: false,
        }
    }

    // No line: a command is not whole yet, or there is none.
    pub fn quiet(session: Session, more: bool) -> Turn
        ensures { result ≡ silent session more }
    {
        Turn {
            reply: None,
            session,
            more,
        }
    }
}

// The words of a line, the spaces and the numbers are written each by itself, a sign with its space: a writer may pass over one that fails.
impl fmt::Display for BasisReply {
    fn fmt<W: fmt::Write>(&self, f: &mut fmt::Formatter<W>) -> fmt::Result {
        write!(f, "basis")?;
        write!(f, " {} {}", self.modulus, self.value_bits)?;
        write!(f, " {} {}", self.log_basis, self.level_count)?;
        write!(f, " {} {}", self.drop_bits, self.error_bound)?;
        write!(f, " {}", self.threshold)
    }
}

fn write_signed<W: fmt::Write>(f: &mut fmt::Formatter<W>, number: i64) -> fmt::Result {
    if number < 0 {
        return write!(f, " -{}", number.unsigned_abs());
    }
    write!(f, " {number}")
}

impl fmt::Display for WordReply {
    fn fmt<W: fmt::Write>(&self, f: &mut fmt::Formatter<W>) -> fmt::Result {
        write!(f, "word")?;
        write!(f, " {}", self.word)?;
        write_signed(f, self.reading)?;
        write_signed(f, self.error)?;
        for digit in self.digits.iter().take(self.level_count) {
            write_signed(f, *digit)?;
        }
        Ok(())
    }
}

impl fmt::Display for Reply {
    fn fmt<W: fmt::Write>(&self, f: &mut fmt::Formatter<W>) -> fmt::Result {
        match self {
            Reply::Basis(r) => write!(f, "{r}"),
            Reply::Word(r) => write!(f, "{r}"),
        }
    }
}

fn basis_line(b: ApproxSignedBasis, threshold: u32) -> BasisReply
    ensures { result ≡ basis_line b threshold }
{
    let log = b.log_basis();
    let levels = b.level_count();
    BasisReply {
        modulus: u32::from(b.modulus()),
        value_bits: b.value_bits(),
        log_basis: log.get(),
        level_count: levels.get(),
        drop_bits: b.drop_bits(),
        error_bound: b.approximate_error_bound(),
        threshold,
    }
}

// A refused basis keeps the earlier one.
pub fn on_basis(session: Session, b: ApproxSignedBasis) -> Turn
    ensures { result ≡ basis_turn session b }
{
    match b.threshold() {
        Ok(t) => Turn::next(Ok(Reply::Basis(basis_line(b, t))), Some(b)),
        Err(refusal) => Turn::next(Err(refusal), session),
    }
}

// A word under the basis that was accepted last.
#[tactic(auto, using(check_order::proofs::Answers::answered_ok))]
fn read_word(b: ApproxSignedBasis, word: u32) -> Turn
    ensures { result ≡ read_word b word }
{
    let levels = b.level_count();
    match b.reading(word) {
        Ok(r) => {
            let reply = WordReply {
                word,
                reading: r.reading,
                error: r.error,
                digits: readings_digits::of_word(b, word),
                level_count: levels.get(),
            };
            Turn::next(Ok(Reply::Word(reply)), Some(b))
        }
        Err(refusal) => Turn::next(Err(refusal), Some(b)),
    }
}

// A word before any accepted basis is refused.
pub fn on_word(session: Session, word: u32) -> Turn
    ensures { result ≡ word_turn session word }
{
    match session {
        None => Turn::next(Err(Refusal::NoBasis), None),
        Some(b) => read_word(b, word),
    }
}
