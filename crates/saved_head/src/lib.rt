// The head of a saved file, read from lent bytes: docs/FILES.md has the layout. Past the end every byte is 0.
#![tactic(auto)]

mod head;
mod kind;

pub use head::{Head, file_refusal, file_refused, head_of};
pub use kind::Kind;
