// The codec in one number. Stays below the exports that pass it on: codec_vectors calls `decode_number`, since no program can call a static
// library, and `encode_number`, moved into its export, would be the same lines.
ghost use Rattle.std.specs.Prelude.{◌≡◌};
ghost use Rattle.c_numbers.specs.Service.{decode_number, encode_number};

use crate::parameters::{codec_for, embedding_for};

// encode(m), or 2^32 plus the number of the first refusal: 2, 7, 8, 16.
pub fn encode_number(modulus: u32, t: u32, centered: u32, message: u32) -> u64
    ensures { result ≡ encode_number modulus t centered message }
{
    let codec = codec_for(modulus, t);
    c_answers::word_number(codec.encode_value(message, embedding_for(centered)))
}

// decode(word), or 2^32 plus the number of the first refusal: 2, 7, 8, 14.
pub fn decode_number(modulus: u32, t: u32, word: u32) -> u64
    ensures { result ≡ decode_number modulus t word }
{
    let codec = codec_for(modulus, t);
    c_answers::word_number(codec.decode_value(word))
}
