// The digits of a word as the program shows them: signed, lowest first. Not for users: readings_core has judged the word.
#![tactic(auto)]

ghost use Rattle.std.specs.Prelude.{◌≡◌, pos, ltb};
ghost use Rattle.scheme.specs.Numbers.{pick};
ghost use Rattle.scheme.specs.Checks.{refusal};
ghost use Rattle.primus_decompose.specs.Answers.{signed_digit, word_rows};
ghost use Rattle.readings_digits.specs.Digits.{numbers, stepped_digit, shown_digit};

use primus_decompose::{ApproxSignedBasis, SignedDecomposer};

// The number that a stored digit stands for, or 0 above level L.
fn shown(b: ApproxSignedBasis, digit: u32, j: usize) -> i64
    ensures { result ≡ pick (ltb j b.level_count.0) (signed_digit b digit) (pos 0) }
{
    let levels = b.level_count();
    if j < levels.get() {
        return b.signed_digit(digit);
    }
    0
}

#[tactic(auto, using(gadget_digits::proofs::Columns::after_none, crate::proofs::Numbers::is_numbers))]
fn of_steps(b: ApproxSignedBasis, start: SignedDecomposer) -> [i64; 16]
    ensures { result ≡ numbers 16 (stepped_digit b start) }
{
    let mut digits = [0; 16];
    let mut d = start;
    for (j, digit) in digits.iter_mut().enumerate() {
        let s = d.step();
        *digit = shown(b, s.digit, j);
        d = s.next;
    }
    digits
}

// The L digits of a word, and zeros above them. Stays: an array, with no heap: no basis has more than 16 levels.
#[tactic(auto, using(crate::proofs::Numbers::shown_digits, crate::proofs::Numbers::no_refusal))]
pub fn of_word(b: ApproxSignedBasis, word: u32) -> [i64; 16]
    requires { refusal (word_rows b word) ≡ 0 }
    ensures { result ≡ numbers 16 (shown_digit b word) }
{
    match b.prepare() {
        Ok(p) => of_steps(b, p.decomposer(word)),
        Err(_) => [0; 16],
    }
}
