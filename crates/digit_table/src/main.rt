// How busy a switch will be. For a basis: how many words have 0, 1, … L digits that are not zero, what share of all words that is, and how
// many entries of the key a switch adds for a mask word, one for each such digit.
//     digit_table MODULUS BASE_LOG [LEVELS]    0 is the native modulus, or levels left open
//     digit_table                              the tables of a few bases
#![tactic(auto)]

mod arguments;
mod table;

use primus_decompose::ApproxSignedBasis;
use primus_reduce::Modulus;
use std::io;

// The levels are left open.
fn examples(rt: &impl Print) -> io::Result<()> {
    for (modulus, base_log) in [(16, 2), (17, 2), (65535, 4), (0, 2), (0, 8), (65537, 8)] {
        let modulus = Modulus::from(modulus);
        table::print(rt, ApproxSignedBasis::given(modulus, base_log, 0))?;
    }
    Ok(())
}

fn main(rt: HostRuntime) -> io::Result<()> {
    if arguments::none(&rt) {
        return examples(&rt);
    }
    match arguments::basis(&rt) {
        Some(basis) => table::print(&rt, basis),
        None => println!(&rt; "usage: digit_table MODULUS BASE_LOG [LEVELS], numbers below 2^32"),
    }
}
