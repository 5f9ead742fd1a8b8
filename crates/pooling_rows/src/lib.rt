// One ciphertext of a saved file added to that of a total, and the tags of both. Steps of pooling, not for users.
#![tactic(auto)]

mod rows;
mod tags;

pub use rows::add_row;
pub use tags::{places_refused, saved_refused, write_tags};
