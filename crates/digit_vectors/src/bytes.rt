// The words of a record, four bytes each. Past its end every byte is 0.

// Word i.
pub(crate) fn word_at(r: &[u8], i: usize) -> u32 {
    little_endian::u32_at(r, i.wrapping_mul(4))
}

// The words are the numbers of the record.
pub(crate) fn run_is(out: &[u32], r: &[u8]) -> bool {
    out.iter()
        .enumerate()
        .all(|(i, word)| *word == word_at(r, i))
}

// The first and the last word of each run of three are the numbers of the record.
pub(crate) fn ends_are(out: &[u32], r: &[u8]) -> bool {
    out.chunks_exact(3).enumerate().all(|(i, run)| {
        let number = word_at(r, i);
        matches!(run, [first, _, last] if *first == number && *last == number)
    })
}
