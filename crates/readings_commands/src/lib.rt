// The commands of the program: one byte each, operands little-endian, one line of answer each.
#![tactic(auto)]

ghost use Rattle.std.specs.Prelude.{◌≡◌, ◌≤◌};
ghost use Rattle.readings_commands.specs.Commands.{command_of, operands, basis_command, word_command, turn_of, byte_operands, byte_turn};

use check_order::Refusal;
use primus_decompose::ApproxSignedBasis;
use primus_reduce::Modulus;
use readings_core::{Session, Turn};

// What a byte 01 or 02 asks for.
#[derive(Clone, Copy)]
pub enum Command {
    Basis,
    Word,
}

// Another byte is no command: 19.
impl TryFrom<u8> for Command {
    type Error = Refusal;

    ghost try_from_gives = { λ byte command. command ≡ command_of byte };

    fn try_from(byte: u8) -> Result<Command, Refusal> {
        match byte {
            1 => Ok(Command::Basis),
            2 => Ok(Command::Word),
            _ => Err(Refusal::Unreadable),
        }
    }
}

impl Command {
    // Bytes of operands.
    pub fn operand_count(self) -> usize
        ensures { (result ≡ operands self) × (result ≤ 6) }
    {
        match self {
            Command::Basis => 6,
            Command::Word => 4,
        }
    }

    // The answer to the operands that were there. Cut off: 19.
    // Stays: a match of one line a command, each of which tests its own operands, as its definition does; and a session beside operands, here
    // and in those: a struct of the two would be made in one line and taken apart in the next.
    pub fn answer(self, session: Session, operands: &[u8]) -> Turn
        ensures { result ≡ turn_of session self operands.now }
    {
        match self {
            Command::Basis => basis_command(session, operands),
            Command::Word => word_command(session, operands),
        }
    }
}

// Bytes of operands, of a command by its byte: what is no command takes none.
pub fn operand_count(command: u8) -> usize
    ensures { (result ≡ byte_operands command) × (result ≤ 6) }
{
    match Command::try_from(command) {
        Ok(command) => command.operand_count(),
        Err(_) => 0,
    }
}

// The answer to a command by its byte: what is no command gets 19.
pub fn answer(session: Session, command: u8, operands: &[u8]) -> Turn
    ensures { result ≡ byte_turn session command operands.now }
{
    match Command::try_from(command) {
        Ok(command) => command.answer(session, operands),
        Err(_) => Turn::end(session),
    }
}

// 01: modulus, base log, levels.
fn basis_command(session: Session, operands: &[u8]) -> Turn
    ensures { result ≡ basis_command session operands.now }
{
    if operands.len() < 6 {
        return Turn::end(session);
    }
    let modulus = Modulus::from(little_endian::u32_at(operands, 0));
    let log = little_endian::u8_at(operands, 4);
    let levels = little_endian::u8_at(operands, 5);
    readings_core::on_basis(session, ApproxSignedBasis::given(modulus, log, levels))
}

// 02: word.
fn word_command(session: Session, operands: &[u8]) -> Turn
    ensures { result ≡ word_command session operands.now }
{
    if operands.len() < 4 {
        return Turn::end(session);
    }
    readings_core::on_word(session, little_endian::u32_at(operands, 0))
}
