// Answers of the program as lines of text.
#![tactic(auto)]

mod pieces;
mod print;

pub use print::{print_turn, print_turns};
