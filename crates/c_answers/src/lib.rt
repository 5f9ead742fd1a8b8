// Answers as numbers, for C: the exports of saigagalena hand them on.
#![tactic(auto)]

mod answers;

pub use answers::{LweOutcome, code, mark_number, refused, word_number};
