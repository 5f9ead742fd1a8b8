// Why a call is refused: each reason once, with the number that C, files and programs give it, and what it says.
ghost use Rattle.std.specs.Prelude.{◌≡◌};
ghost use Rattle.check_order.specs.Answer.{number_of};

use std::error::Error;
use std::fmt;

// In the order of the table of checks. A number is never given to another reason: 4 is retired.
#[derive(Clone, Copy, Debug, PartialEq, Eq)]
pub enum Refusal {
    BaseLog = 1,
    Modulus = 2,
    Base = 3,
    Levels = 5,
    // Counts of words alone (T-13).
    LargeModulus = 26,
    Dimension = 6,
    PlaintextModulus = 7,
    SmallModulus = 8,
    KeyLength = 9,
    InputLength = 10,
    OutputLength = 11,
    LentLength = 12,
    ErrorLimit = 13,
    Word = 14,
    Error = 15,
    Message = 16,
    Tally = 17,
    // A word comes before any accepted basis: the program of readings alone.
    NoBasis = 18,
    // Bytes that are no whole file, or no whole command.
    Unreadable = 19,
}

impl Refusal {
    // What it means.
    fn meaning(self) -> &'static str {
        match self {
            Refusal::BaseLog => "the base log is below 2 or above 31",
            Refusal::Modulus => "the modulus is below 4",
            Refusal::Base => "the modulus is below the base",
            Refusal::Levels => "the level count is 0 or more than fit",
            Refusal::LargeModulus => "the modulus is above 65536 and no power of two",
            Refusal::Dimension => "a dimension is 0 or above 2048",
            Refusal::PlaintextModulus => "the plaintext modulus is below 2",
            Refusal::SmallModulus => "the modulus is at most the plaintext modulus",
            Refusal::KeyLength => "a key has the wrong length",
            Refusal::InputLength => "ciphertexts have the wrong length or dimension",
            Refusal::OutputLength => "an output has the wrong length",
            Refusal::LentLength => "masks, errors, coefficients or tags have the wrong length",
            Refusal::ErrorLimit => "the error limit is above 1048576 or not below the modulus",
            Refusal::Word => "a word is not below the modulus",
            Refusal::Error => "an error is outside its limit, or a coefficient is none of -1, 0, 1",
            Refusal::Message => "a message is not below the plaintext modulus",
            Refusal::Tally =>
                "a tally, given or summed, is above 2^32, or a number of encryptions above 65536",
            Refusal::NoBasis => "a word comes before any accepted basis",
            Refusal::Unreadable => "an unknown command, or no whole file of its kind",
        }
    }
}

impl fmt::Display for Refusal {
    fn fmt<W: fmt::Write>(&self, f: &mut fmt::Formatter<W>) -> fmt::Result {
        write!(f, "{}: {}", u32::from(*self), self.meaning())
    }
}

impl Error for Refusal {}

// Its number.
impl From<Refusal> for u32 {
    ghost from_gives = { λ refusal number. number ≡ number_of refusal };

    #[tactic(auto, unfolding(crate::specs::Answer::number_of))]
    fn from(refusal: Refusal) -> u32 {
        refusal as u32
    }
}
