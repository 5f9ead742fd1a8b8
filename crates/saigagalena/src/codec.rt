// The rounded codec, for C. The promises are those of primus_encoding, of the moduli that the numbers give.
ghost use Rattle.std.specs.Prelude.{◌≡◌};
ghost use Rattle.primus_reduce.specs.Ring.{modulus_for};
ghost use Rattle.primus_encoding.specs.Answers.{EncodesSlice, DecodesSlice};
ghost use Rattle.c_numbers.specs.Numbers.{embedding_for};
ghost use Rattle.c_numbers.specs.Service.{encode_number, decode_number};

// encode(m), or 2^32 plus the first of 2, 7, 8, 16 that applies.
#[unsafe(no_mangle)]
pub extern "C" fn saigagalena_encode(modulus: u32, t: u32, centered: u32, message: u32) -> u64
    ensures { result ≡ encode_number modulus t centered message }
{
    c_numbers::encode_number(modulus, t, centered, message)
}

// decode(word), or 2^32 plus the first of 2, 7, 8, 14 that applies.
#[unsafe(no_mangle)]
pub extern "C" fn saigagalena_decode(modulus: u32, t: u32, word: u32) -> u64
    ensures { result ≡ decode_number modulus t word }
{
    c_numbers::decode_number(modulus, t, word)
}

// encode of each message, in its place. Refuses by 2, 7, 8, 11, 16.
#[unsafe(no_mangle)]
pub extern "C" fn saigagalena_encode_slice(
    modulus: u32,
    t: u32,
    centered: u32,
    messages: &[u32],
    out: &mut [u32],
) -> u32
    ensures { EncodesSlice t (modulus_for modulus) (embedding_for centered) messages.now
        out.old result out.new }
{
    let codec = c_numbers::codec_for(modulus, t);
    let embedding = c_numbers::embedding_for(centered);
    c_numbers::code(codec.encode_slice_to(messages, out, embedding))
}

// decode of each word, in its place. Refuses by 2, 7, 8, 11, 14.
#[unsafe(no_mangle)]
pub extern "C" fn saigagalena_decode_slice(
    modulus: u32,
    t: u32,
    words: &[u32],
    out: &mut [u32],
) -> u32
    ensures { DecodesSlice t (modulus_for modulus) words.now
        out.old result out.new }
{
    let codec = c_numbers::codec_for(modulus, t);
    c_numbers::code(codec.decode_slice_to(words, out))
}
