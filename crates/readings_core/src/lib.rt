// The answers of the program of readings: what a basis and a word answer.
#![tactic(auto)]

mod command;

pub use command::{BasisReply, Reply, Session, Turn, WordReply, on_basis, on_word};
