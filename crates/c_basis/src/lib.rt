// The basis and a reading as rows of numbers, for C: the exports of saigagalena hand them on.
#![tactic(auto)]

mod basis;

pub use basis::{write_basis, write_reading};
