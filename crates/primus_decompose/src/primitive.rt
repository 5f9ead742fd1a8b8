// Decomposition of words of 32 bits.
mod basis;
mod counts;
mod prepared;
mod reading;
mod slice;

pub use basis::ApproxSignedBasis;
