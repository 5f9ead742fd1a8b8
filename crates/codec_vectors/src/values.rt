// A value record: try_new, the value calls in both embeddings, and the C call.
// Stays: a codec and a record's bytes, as in slices: the codec is made of the record once, and the rest is read where it is used.
use check_order::Refusal;
use primus_encoding::{MessageDecoder, PlaintextEmbedding, RoundedCodec};

// What a record expects of a call: the value at one place, or the number of a refusal at another.
// Stays: a refusal as its number: no Refusal is made of one, and that of the answer is compared with it.
fn expected(r: &[u8], refusal: usize, value: usize) -> Result<u32, u32> {
    match little_endian::u8_at(r, refusal) {
        0 => Ok(little_endian::u32_at(r, value)),
        number => Err(number),
    }
}

fn is(answer: Result<u32, Refusal>, expected: Result<u32, u32>) -> bool {
    answer.map_err(|reason| u32::from(reason)) == expected
}

fn encodings_right(codec: RoundedCodec, r: &[u8]) -> bool {
    let x = little_endian::u32_at(r, 9);
    let plain = codec.encode_value(x, PlaintextEmbedding::Unsigned);
    let centered = codec.encode_value(x, PlaintextEmbedding::Centered);
    let sum = codec.add_encode_value_assign(
        little_endian::u32_at(r, 13),
        x,
        PlaintextEmbedding::Centered,
    );
    is(plain, expected(r, 18, 19))
        && is(centered, expected(r, 18, 23))
        && is(sum, expected(r, 27, 28))
}

fn decodings_right(codec: RoundedCodec, r: &[u8]) -> bool {
    let p = little_endian::u32_at(r, 9);
    let message = expected(r, 32, 33);
    let decoder = MessageDecoder::from(codec);
    is(codec.decode_value(p), message) && is(decoder.decode_value(p), message)
}

// The library's explicit modulus 0 has no counterpart in the C call. Stays: 2^32 plus a number for a refusal: C's call answers so.
fn c_right(r: &[u8]) -> bool {
    let modulus = little_endian::u32_at(r, 1);
    if modulus == 0 && little_endian::u8_at(r, 0) != 0 {
        return true;
    }
    let answer = c_numbers::decode_number(
        modulus,
        little_endian::u32_at(r, 5),
        little_endian::u32_at(r, 9),
    );
    match expected(r, 32, 33) {
        Ok(message) => answer == u64::from(message),
        Err(number) => answer == 0x1_0000_0000 + u64::from(number),
    }
}

pub(crate) fn right(r: &[u8]) -> bool {
    // Stays: the record's number of a refusal, 0 for none: no value stands beside it, and it is compared here alone.
    let refusal = little_endian::u8_at(r, 17);
    let calls_right = match RoundedCodec::try_new(
        little_endian::u32_at(r, 5),
        programs::modulus_at(r, 0),
    ) {
        Ok(codec) => refusal == 0 && encodings_right(codec, r) && decodings_right(codec, r),
        Err(reason) => u32::from(reason) == refusal,
    };
    calls_right && c_right(r)
}
