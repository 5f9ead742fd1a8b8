// Six words from `at` on.
pub(crate) fn six(r: &[u8], at: usize) -> [u32; 6] {
    std::array::from_fn(|i| little_endian::u32_at(r, at.wrapping_add(4 * i)))
}
