// The words of the rounded codec: its two moduli, judged, and its arithmetic. Not for users: an encoding and the rounding have a
// `requires`, which the calls of primus_encoding meet after they have judged.
#![tactic(auto)]

mod embedding;
mod moduli;
mod switch;

pub use embedding::PlaintextEmbedding;
pub use moduli::Moduli;
pub use switch::switch_value;
