// The table of a basis. That a line has the counts of the call is tested, not proved.
use primus_decompose::ApproxSignedBasis;
use std::io;

// x × scale / q, to the nearest. What is counted is below 2^48, so nothing wraps; no basis with q = 0 is counted.
fn part(x: u64, scale: u64, q: u64) -> u64 {
    x.wrapping_mul(scale)
        .wrapping_add(q / 2)
        .checked_div(q)
        .unwrap_or(0)
}

fn print_line(rt: &impl Print, j: usize, count: u32, q: u64) -> io::Result<()> {
    let share = part(u64::from(count), 10_000, q);
    println!(rt;
        "{j:>15} {count:>11} {:>5}.{:02} %",
        share / 100,
        share % 100
    )
}

// Σ j × count
fn entries(counts: &[u32]) -> u64 {
    let mut sum = 0u64;
    for (j, count) in counts.iter().enumerate() {
        sum = sum.wrapping_add((j as u64).wrapping_mul(u64::from(*count)));
    }
    sum
}

fn print_counts(rt: &impl Print, counts: &[u32], q: u64) -> io::Result<()> {
    println!(rt; "digits not zero       words    share")?;
    for (j, count) in counts.iter().enumerate() {
        print_line(rt, j, *count, q)?;
    }
    let mean = part(entries(counts), 1000, q);
    println!(rt;
        "entries added for a mask word: {}.{:03} on average",
        mean / 1000,
        mean % 1000
    )
}

// The table of a basis, or why there is none.
pub(crate) fn print(rt: &impl Print, basis: ApproxSignedBasis) -> io::Result<()> {
    let q = basis.modulus().size();
    let base_log = basis.log_basis().get();
    let levels = basis.level_count().get();
    println!(rt; "q {q}, base log {base_log}, L {levels}")?;
    let mut room = [0u32; 17];
    let counts = &mut room[..levels.min(16) + 1];
    match basis.digit_counts(counts) {
        Ok(()) => print_counts(rt, counts, q),
        Err(refusal) => println!(rt; "refused {refusal}"),
    }
}
