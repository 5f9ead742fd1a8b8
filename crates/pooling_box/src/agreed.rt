// What was agreed on: a row has a count for each of four castings, taken modulo t. What bounds the shops' errors is their tallies.
use std::env::Env;

pub(crate) const PLACES: usize = 4;

// t: the program's argument, or 1,024 where there is none; 0 for what is no number, with which no file is accepted: 19 refuses a file of
// another t, and 7 one whose head has 0 too.
// Stays: 0, no Option: what is no number is refused as a wrong t is, with no path of its own.
pub(crate) fn plaintext_modulus(rt: &impl Env) -> u32 {
    programs::argument(rt, 1, Some(1024)).unwrap_or(0)
}
