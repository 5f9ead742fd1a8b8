// The constants of a gadget basis, and what they make of a word. The functions with a `requires` are not for users: the calls of
// primus_decompose judge first.
#![tactic(auto)]

mod prepared;
mod word;

pub use prepared::{
    PreparedBasis, drop_bits, error_bound, power, power_word, prepare, scalars_from,
};
pub use word::{Reading, ValueCarry, read, signed_digit, write_columns};
