// Commands out of bytes: which bytes make one, what each answers, and what the end of the input leaves.
ghost use Rattle.std.specs.Prelude.{◌≡◌, ◌≤◌};
ghost use Rattle.readings_commands.specs.Commands.{command_of};
ghost use Rattle.readings_reader.specs.Run.{start, idle, put, one_more, settled_by, begun_by, fed, finished};

use readings_commands::Command;
use readings_core::{Session, Turn};

// The answer to the last byte, and the command that has begun, with the operand bytes that came so far.
#[derive(Clone, Copy)]
pub struct Reader {
    pub turn: Turn,
    pub command: Option<Command>,
    // Stays: an array and how much of it is filled: an `arrayvec::ArrayVec` is not Copy, and a reader is.
    pub held: [u8; 6],
    pub count: usize,
}

// No command has begun; the places keep what they hold.
fn idle(turn: Turn, held: [u8; 6]) -> Reader
    ensures { result ≡ idle turn held }
{
    Reader {
        turn,
        command: None,
        held,
        count: 0,
    }
}

// Six bytes are the most that a command takes.
fn with_operand(held: [u8; 6], count: usize, byte: u8) -> [u8; 6]
    ensures { result ≡ put held count byte }
{
    let mut next = held;
    if count < 6 {
        next[count] = byte;
    }
    next
}

fn one_more(count: usize) -> usize
    ensures { (result ≡ one_more count) × (result ≤ 6) }
{
    if count < 6 { count + 1 } else { 6 }
}

// A command is answered once it has as many operand bytes as it takes.
fn settled(session: Session, command: Command, held: [u8; 6], count: usize) -> Reader
    requires { count ≤ 6 }
    ensures { result ≡ settled_by session command held count }
{
    if command.operand_count() <= count {
        return idle(command.answer(session, &held[..count]), held);
    }
    Reader {
        turn: Turn::quiet(session, true),
        command: Some(command),
        held,
        count,
    }
}

// The byte of a command, whose operands are awaited; another takes none, and is answered at once, by 19.
fn begun(session: Session, held: [u8; 6], byte: u8) -> Reader
    ensures { result ≡ begun_by session held (command_of byte) }
{
    if readings_commands::operand_count(byte) == 0 {
        return idle(readings_commands::answer(session, byte, &[]), held);
    }
    Reader {
        turn: Turn::quiet(session, true),
        command: Command::try_from(byte).ok(),
        held,
        count: 0,
    }
}

impl Reader {
    // Before the first byte.
    pub fn new() -> Reader
        ensures { result ≡ start }
    {
        idle(Turn::quiet(None, true), [0; 6])
    }

    // One byte more. After 19 it changes nothing.
    #[tactic(auto, unfolding(crate::specs::Run::fed))]
    pub fn feed(self, byte: u8) -> Reader
        ensures { result ≡ fed self byte }
    {
        let turn = self.turn;
        let session = turn.session;
        let held = self.held;
        if !turn.more {
            return idle(Turn::quiet(session, false), held);
        }
        let Some(command) = self.command else {
            return begun(session, held, byte);
        };
        let count = self.count;
        let held = with_operand(held, count, byte);
        settled(session, command, held, one_more(count))
    }

    // The end of the input: a command that has begun is cut off, by 19.
    #[tactic(auto, unfolding(crate::specs::Run::finished))]
    pub fn finish(self) -> Turn
        ensures { result ≡ finished self }
    {
        let turn = self.turn;
        let session = turn.session;
        match self.command {
            Some(_) => Turn::end(session),
            None => Turn::quiet(session, false),
        }
    }
}
