// One read of the program: what its bytes leave.
#![tactic(auto)]

mod step;

pub use step::{Step, feed_all};
