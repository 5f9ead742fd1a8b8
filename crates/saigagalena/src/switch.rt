// Key switching, for C. The promises are those of key_switch, of the parameters that the numbers give.
ghost use Rattle.key_switch.specs.Answers.{Switches, SwitchesBatch};
ghost use Rattle.c_numbers.specs.Numbers.{switching_with};
ghost use Rattle.c_answers.specs.Service.{Tells, outcome_of};

use c_numbers::LweOutcome;
use lwe_tag::LweTag;

// (0, b) minus the sum of digit(i, j) × entry(i, j) modulo q, and its tag: c is kept, with no tally. Refuses by 1 to 3, 5, 6, 9, 10, 11, 14,
// 17.
#[unsafe(no_mangle)]
pub extern "C" fn saigagalena_key_switch(
    modulus: u32,
    base_log: u32,
    levels: u32,
    n: usize,
    m: usize,
    key: &[u32],
    input: &[u32],
    tag: LweTag,
    out: &mut [u32],
) -> LweOutcome
    ensures { Tells outcome_of (λ x. Switches (switching_with modulus base_log levels n m) key.now
        input.now tag out.old x out.new) result }
{
    let params = c_numbers::switching_for(modulus, base_log, levels, n, m);
    LweOutcome::from(key_switch::key_switch_to(params, key, input, tag, out))
}

// Each row by itself. `tags` has the tag of each, and afterwards that of each row of the output: its c, and no tally. Refuses by 1 to 3, 5,
// 6, 9, 10, 11, 12 (another number of tags), 14, 17.
#[unsafe(no_mangle)]
pub extern "C" fn saigagalena_key_switch_batch(
    modulus: u32,
    base_log: u32,
    levels: u32,
    n: usize,
    m: usize,
    key: &[u32],
    input: &[u32],
    tags: &mut [LweTag],
    out: &mut [u32],
) -> u32
    ensures { SwitchesBatch (switching_with modulus base_log levels n m)
        key.now input.now tags.old out.old result tags.new out.new }
{
    let params = c_numbers::switching_for(modulus, base_log, levels, n, m);
    c_numbers::code(key_switch::key_switch_batch_to(params, key, input, tags, out))
}
