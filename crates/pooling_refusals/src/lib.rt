// What refuses a saved file that begins a total or is added to one. For the calls of pooling, which act after it.
// Stays: each lent buffer is a parameter of its own, as the call is lent it, and a file's head, read once, stands beside its bytes: a struct
// would be made in one line and taken apart in the next.
#![tactic(auto)]

mod total;

pub use total::{begin_refusal, total_refusal};
