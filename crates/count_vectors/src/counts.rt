// A record: a basis as it is given, the room that is lent, and what is expected of the call.
use primus_decompose::ApproxSignedBasis;
use primus_reduce::Modulus;

// The words of the buffer, and what stands in each before the call.
const WORDS: usize = 20;

const BEFORE: u32 = 0x5eed_5eed;

// What a record expects: the counts, as its bytes have them, or the number of the refusal.
// Stays: a refusal as its number: no Refusal is made of one, and that of the answer is compared with it.
#[derive(Clone, Copy)]
pub struct Expected<'a> {
    basis: ApproxSignedBasis,
    room: usize,
    counts: Result<&'a [u8], u32>,
}

impl<'a> Expected<'a> {
    pub(crate) fn new(r: &'a [u8]) -> Expected<'a> {
        let modulus = Modulus::from(little_endian::u32_at(r, 0));
        let base_log = little_endian::u32_at(r, 4);
        let levels = little_endian::u32_at(r, 8);
        Expected {
            basis: ApproxSignedBasis::given(modulus, base_log, levels),
            room: little_endian::u8_at(r, 12) as usize,
            counts: match little_endian::u8_at(r, 13) {
                0 => Ok(r.get(14..).unwrap_or(&[])),
                number => Err(number),
            },
        }
    }

    // A short record is never refused: it has up to five counts, and lends room for the levels that it gives.
    pub(crate) fn short(r: &'a [u8]) -> Expected<'a> {
        let modulus = Modulus::from(little_endian::u32_at(r, 0));
        let base_log = little_endian::u8_at(r, 4);
        let levels = little_endian::u8_at(r, 5);
        Expected {
            basis: ApproxSignedBasis::given(modulus, base_log, levels),
            room: (levels as usize).wrapping_add(1),
            counts: Ok(r.get(6..).unwrap_or(&[])),
        }
    }

    pub(crate) fn is_refused(&self) -> bool {
        self.counts.is_err()
    }
}

// The words are the numbers of the record.
fn run_is(out: &[u32], bytes: &[u8]) -> bool {
    out.len() <= bytes.len() / 4
        && out
            .iter()
            .zip(bytes.chunks_exact(4))
            .all(|(word, bytes)| *word == little_endian::u32_at(bytes, 0))
}

fn untouched(out: &[u32]) -> bool {
    out.iter().all(|word| *word == BEFORE)
}

// The answer is the one expected; a refused call has written nothing, and no call past its room.
pub(crate) fn agree(e: &Expected) -> bool {
    let mut out = [BEFORE; WORDS];
    let room = e.room.min(WORDS);
    let right = match (e.basis.digit_counts(&mut out[..room]), e.counts) {
        (Ok(()), Ok(counts)) => run_is(&out[..room], counts),
        (Err(refusal), Err(number)) => number == u32::from(refusal) && untouched(&out[..room]),
        _ => false,
    };
    right && untouched(&out[room..])
}
