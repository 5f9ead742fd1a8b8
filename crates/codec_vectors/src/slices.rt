// A slice record: one slice call, its answer, and all words of its buffer afterwards.
use crate::bytes;
use check_order::Refusal;
use primus_encoding::{MessageDecoder, RoundedCodec};

// The calls, in the order of the numbers from 1 that the file gives them: those of the codec, then those of the decoder.
#[derive(Clone, Copy)]
enum Call {
    EncodeTo,
    EncodeAssign,
    AddEncodeAssign,
    DecodeTo,
    DecodeAssign,
    DecoderTo,
    DecoderAssign,
}

impl From<u32> for Call {
    // A number of no call is taken for one: 0 for the sum of an encoding, and from 8 on for the decoder's last.
    fn from(number: u32) -> Call {
        match number {
            1 => Call::EncodeTo,
            2 => Call::EncodeAssign,
            0 | 3 => Call::AddEncodeAssign,
            4 => Call::DecodeTo,
            5 => Call::DecodeAssign,
            6 => Call::DecoderTo,
            _ => Call::DecoderAssign,
        }
    }
}

// What a record expects where its lengths are above the six words that it has: no call is made.
// Stays: a number: the record holds it beside those of refusals, and it is compared once.
const NO_ROOM: u32 = 99;

// Stays: a match of one line a call: each is another call of the library.
fn called(
    call: Call,
    codec: RoundedCodec,
    r: &[u8],
    lent: &[u32],
    buffer: &mut [u32],
) -> Result<(), Refusal> {
    let e = programs::embedding_at(r, 10);
    match call {
        Call::EncodeTo => codec.encode_slice_to(lent, buffer, e),
        Call::EncodeAssign => codec.encode_slice_assign(buffer, e),
        Call::AddEncodeAssign => codec.add_encode_slice_assign(buffer, lent, e),
        Call::DecodeTo => codec.decode_slice_to(lent, buffer),
        Call::DecodeAssign => codec.decode_slice_assign(buffer),
        Call::DecoderTo => MessageDecoder::from(codec).decode_slice_to(lent, buffer),
        Call::DecoderAssign => MessageDecoder::from(codec).decode_slice_assign(buffer),
    }
}

// The number of what the call answers on the first words of what is lent and of the buffer, as many as the record says; none
// where there are fewer.
fn answer(codec: RoundedCodec, r: &[u8], lent: &[u32], buffer: &mut [u32]) -> Option<u32> {
    let call = Call::from(little_endian::u8_at(r, 9));
    let lent = lent.get(..little_endian::u8_at(r, 11) as usize)?;
    let buffer = buffer.get_mut(..little_endian::u8_at(r, 12) as usize)?;
    // Stays: a number, 0 for none: the record holds it so, and it is compared once.
    Some(c_numbers::code(called(call, codec, r, lent, buffer)))
}

pub(crate) fn right(r: &[u8]) -> bool {
    let Ok(codec) = RoundedCodec::try_new(little_endian::u32_at(r, 5), programs::modulus_at(r, 0))
    else {
        return false;
    };
    let lent = bytes::six(r, 14);
    let mut buffer = bytes::six(r, 38);
    let answered = answer(codec, r, &lent, &mut buffer).unwrap_or(NO_ROOM);
    answered == little_endian::u8_at(r, 13) && buffer == bytes::six(r, 62)
}
