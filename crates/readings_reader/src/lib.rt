// The program of readings, byte by byte: which bytes make a command, and what falls due after each.
#![tactic(auto)]

mod reader;

pub use reader::Reader;
