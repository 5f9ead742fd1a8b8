// The basis, readings, digits and counts of words, for C.
ghost use Rattle.primus_reduce.specs.Ring.{modulus_for};
ghost use Rattle.primus_decompose.specs.Answers.{basis_with, DecomposesSlice, CountsWords};
ghost use Rattle.c_basis.specs.Bases.{WritesBasis, WritesReading};

use c_numbers::{basis_for, write_basis, write_reading};

// k, B, L, d, H and T. Refuses by 1 to 3, 5, 11.
#[unsafe(no_mangle)]
pub extern "C" fn saigagalena_basis(
    modulus: u32,
    base_log: u32,
    levels: u32,
    out: &mut [u32],
) -> u32
    ensures { WritesBasis (basis_with (modulus_for modulus) base_log levels)
        out.old result out.new }
{
    c_numbers::code(write_basis(out, basis_for(modulus, base_log, levels)))
}

// The reading and ε of a word. Refuses by 1 to 3, 5, 11, 14.
#[unsafe(no_mangle)]
pub extern "C" fn saigagalena_reading(
    modulus: u32,
    base_log: u32,
    levels: u32,
    word: u32,
    out: &mut [i64],
) -> u32
    ensures { WritesReading (basis_with (modulus_for modulus) base_log levels) word
        out.old result out.new }
{
    c_numbers::code(write_reading(out, basis_for(modulus, base_log, levels), word))
}

// The digits of each word, as L runs. Refuses by 1 to 3, 5, 11, 14.
#[unsafe(no_mangle)]
pub extern "C" fn saigagalena_decompose(
    modulus: u32,
    base_log: u32,
    levels: u32,
    input: &[u32],
    out: &mut [u32],
) -> u32
    ensures { DecomposesSlice (basis_with (modulus_for modulus) base_log levels) input.now
        out.old result out.new }
{
    let basis = basis_for(modulus, base_log, levels);
    c_numbers::code(basis.decompose_slice_to(input, out))
}

// How many words below q have just 0, 1, … L digits that are not zero. Refuses by 1 to 3, 5, 26, 11.
#[unsafe(no_mangle)]
pub extern "C" fn saigagalena_digit_counts(
    modulus: u32,
    base_log: u32,
    levels: u32,
    out: &mut [u32],
) -> u32
    ensures { CountsWords (basis_with (modulus_for modulus) base_log levels)
        out.old result out.new }
{
    let basis = basis_for(modulus, base_log, levels);
    c_numbers::code(basis.digit_counts(out))
}
