// Words modulo an explicit q, and powers of two. Not for users: a `Divisor` is not 0, and some steps have a `requires`, which the calls
// of primus_reduce meet.
#![tactic(auto)]

mod ops;
mod power;

pub use ops::Divisor;
pub use power::{is_power, quotient, value_bits};
