// The basis and a reading, written as rows of numbers. Stays: by place, no struct: so they stand in C's arrays.
ghost use Rattle.std.specs.Prelude.{◌≡◌, length};
ghost use Rattle.scheme.specs.Checks.{refusal};
ghost use Rattle.check_order.specs.Answer.{code_of};
ghost use Rattle.c_basis.specs.Bases.{output_rows, constants, WritesBasis, WritesReading};

use check_order::Refusal;
use primus_decompose::ApproxSignedBasis;

// Six words, of which T is given.
fn constants(basis: ApproxSignedBasis, threshold: u32) -> [u32; 6]
    ensures { result ≡ constants basis threshold }
{
    let levels = basis.level_count();
    [
        basis.value_bits(),
        basis.basis_value(),
        (levels.get() % 0x1_0000_0000) as u32,
        basis.drop_bits(),
        basis.approximate_error_bound(),
        threshold,
    ]
}

// 1 to 3, 5, and 11 for an output that is not `count` numbers.
fn sizes_refusal(basis: ApproxSignedBasis, room: usize, count: usize) -> Result<(), Refusal>
    ensures { code_of result ≡ refusal (output_rows basis room count) }
{
    let mut s = basis.sizes();
    s.output = checks::length_differs(room, count);
    s.judge()
}

// k, B, L, d, H and T. Refuses by 1 to 3, 5, 11.
pub fn write_basis(out: &mut [u32], basis: ApproxSignedBasis) -> Result<(), Refusal>
    ensures { WritesBasis basis out.old (code_of result) out.new }
{
    sizes_refusal(basis, out.len(), 6)?;
    let threshold = basis.threshold()?;
    out.copy_from_slice(&constants(basis, threshold));
    Ok(())
}

// The reading and ε of a word. Refuses by 1 to 3, 5, 11, 14.
pub fn write_reading(out: &mut [i64], basis: ApproxSignedBasis, word: u32) -> Result<(), Refusal>
    ensures { WritesReading basis word out.old (code_of result) out.new }
{
    sizes_refusal(basis, out.len(), 2)?;
    let x = basis.reading(word)?;
    let reading = x.reading;
    let error = x.error;
    out.copy_from_slice(&[reading, error]);
    Ok(())
}
