// A record: the head, and the words that follow it.
use lwe_errors::LweErrorsRef;
use lwe_parameters::{
    LweDecryptionParameters, LweEncryptionParameters, LweParameters, LwePhaseParameters,
};
use primus_encoding::PlaintextEmbedding;
use primus_lattice::LweDimension;
use primus_reduce::Modulus;
use std::io::Read;

const HEAD: usize = 60;

// The most words and numbers that an operand has, and the most that a record has in all.
const WORDS: usize = 8192;

const NUMBERS: usize = 2048;

const ALL: usize = 16384;

const BYTES: usize = 65536;

// What the number of a kind has more where the errors are words.
pub(crate) const WORDED: u32 = 128;

#[derive(Clone, Copy)]
pub(crate) struct Head {
    // The number of its kind, 0 at the end of the file.
    // Stays: a number: it is what is counted and printed, for each form of the errors, and one that names no kind has a call too.
    pub(crate) kind: u32,
    pub(crate) modulus: Modulus,
    pub(crate) n: usize,
    pub(crate) t: u32,
    pub(crate) error_limit: u32,
    pub(crate) embedding: PlaintextEmbedding,
    // The number of the refusal and what is answered; 0 where there is none.
    // Stays: numbers, no Result: a refused record has an answer too, 0, which is compared, and refusal 0 says that words follow.
    pub(crate) refusal: u32,
    pub(crate) value: u32,
    pub(crate) answer: u32,
    pub(crate) m: usize,
    pub(crate) base_log: u32,
    pub(crate) levels: u32,
    lengths: Lengths,
}

// How many words each operand has.
#[derive(Clone, Copy)]
struct Lengths {
    a: usize,
    b: usize,
    c: usize,
    d: usize,
    e: usize,
    out: usize,
}

// Rooms for what follows one head after another: its bytes, each four of them as a word and as the signed number of the same bits, and
// the buffer of its call.
// Stays: rooms beside each other: each is a run of another type, and each record fills them anew.
#[derive(Drop)]
pub(crate) struct Room {
    bytes: [u8; BYTES],
    pub(crate) words: [u32; ALL],
    pub(crate) numbers: [i32; ALL],
    pub(crate) out: [u32; WORDS],
}

impl Room {
    pub(crate) fn new() -> Room {
        Room {
            bytes: [0; BYTES],
            words: [0; ALL],
            numbers: [0; ALL],
            out: [0; WORDS],
        }
    }

    // The next words of the input, read at once; the answer is whether they are there.
    pub(crate) fn fill(&mut self, input: &mut impl Read, count: usize) -> bool {
        let Some(bytes) = self.bytes.get_mut(..count.saturating_mul(4)) else {
            return false;
        };
        if programs::read_full(input, bytes) < bytes.len() {
            return false;
        }
        let places = self.words.iter_mut().zip(self.numbers.iter_mut());
        for ((word, number), four) in places.zip(bytes.chunks_exact(4)) {
            *word = little_endian::u32_at(four, 0);
            *number = word.cast_signed();
        }
        true
    }
}

// What a call is lent, and its buffer before and after it.
#[derive(Clone, Copy)]
pub(crate) struct Record<'a> {
    pub(crate) head: Head,
    pub(crate) a: &'a [u32],
    pub(crate) b: &'a [u32],
    pub(crate) c: &'a [u32],
    pub(crate) d: &'a [i32],
    // Errors in the form that the number of its kind says.
    pub(crate) e: LweErrorsRef<'a>,
    pub(crate) before: &'a [u32],
    pub(crate) after: &'a [u32],
}

// An operand; none past the end.
fn words(room: &[u32], start: usize, count: usize) -> &[u32] {
    room.get(start..start.wrapping_add(count)).unwrap_or(&[])
}

fn numbers(room: &[i32], start: usize, count: usize) -> &[i32] {
    room.get(start..start.wrapping_add(count)).unwrap_or(&[])
}

// Two bytes. Stays: a remainder of the four that little_endian reads: a `u16_at` would be a step with a law, for one program.
fn length(bytes: &[u8], i: usize) -> usize {
    (little_endian::u32_at(bytes, i) % 65536) as usize
}

impl Head {
    fn of(bytes: &[u8]) -> Head {
        Head {
            kind: little_endian::u8_at(bytes, 0),
            modulus: programs::modulus_at(bytes, 1),
            n: little_endian::u64_at(bytes, 6) as usize,
            t: little_endian::u32_at(bytes, 14),
            error_limit: little_endian::u32_at(bytes, 18),
            embedding: programs::embedding_at(bytes, 22),
            refusal: little_endian::u8_at(bytes, 23),
            value: little_endian::u32_at(bytes, 24),
            answer: little_endian::u32_at(bytes, 28),
            m: little_endian::u64_at(bytes, 44) as usize,
            base_log: little_endian::u32_at(bytes, 52),
            levels: little_endian::u32_at(bytes, 56),
            lengths: Lengths {
                a: length(bytes, 32),
                b: length(bytes, 34),
                c: length(bytes, 36),
                d: length(bytes, 38),
                e: length(bytes, 40),
                out: length(bytes, 42),
            },
        }
    }

    // The parameters, which no try_new has judged: each call judges them by itself.
    pub(crate) fn parameters(self) -> LweParameters {
        LweParameters {
            dimension: LweDimension::given(self.n),
            modulus: self.modulus,
            plaintext_modulus: self.t,
            error_limit: self.error_limit,
        }
    }

    pub(crate) fn encryption_parameters(self) -> LweEncryptionParameters {
        LweEncryptionParameters {
            dimension: LweDimension::given(self.n),
            modulus: self.modulus,
            error_limit: self.error_limit,
        }
    }

    pub(crate) fn decryption_parameters(self) -> LweDecryptionParameters {
        self.parameters().into()
    }

    pub(crate) fn phase_parameters(self) -> LwePhaseParameters {
        self.decryption_parameters().into()
    }

    pub(crate) fn read(input: &mut impl Read) -> Option<Head> {
        let bytes = programs::full_record::<HEAD>(input)?;
        Some(Head::of(&bytes))
    }

    // How many words follow it. A refused call leaves its buffer: the words after it are those before it.
    pub(crate) fn size(self) -> usize {
        let l = self.lengths;
        let written = if self.refusal == 0 { l.out } else { 0 };
        [l.a, l.b, l.c, l.d, l.e, l.out, written]
            .iter()
            .fold(0, |sum: usize, count| sum.saturating_add(*count))
    }

    // There is room for every operand, and for the whole record.
    pub(crate) fn fits(self) -> bool {
        let l = self.lengths;
        l.a.max(l.b).max(l.c).max(l.out) <= WORDS && l.d.max(l.e) <= NUMBERS && self.size() <= ALL
    }
}

impl<'a> Record<'a> {
    // The operands stand one after the other.
    pub(crate) fn of(head: Head, room: &'a [u32], signed: &'a [i32]) -> Record<'a> {
        let l = head.lengths;
        let b = l.a;
        let c = b.wrapping_add(l.b);
        let d = c.wrapping_add(l.c);
        let e = d.wrapping_add(l.d);
        let before = e.wrapping_add(l.e);
        let after = match head.refusal {
            0 => before.wrapping_add(l.out),
            _ => before,
        };
        Record {
            head,
            a: words(room, 0, l.a),
            b: words(room, b, l.b),
            c: words(room, c, l.c),
            d: numbers(signed, d, l.d),
            e: if head.kind < WORDED {
                LweErrorsRef::Signed(numbers(signed, e, l.e))
            } else {
                LweErrorsRef::Encoded(words(room, e, l.e))
            },
            before: words(room, before, l.out),
            after: words(room, after, l.out),
        }
    }

    // The error at a place, alone; none past the end.
    pub(crate) fn error_at(&self, i: usize) -> LweErrorsRef<'a> {
        match self.e {
            LweErrorsRef::Encoded(errors) => LweErrorsRef::Encoded(words(errors, i, 1)),
            LweErrorsRef::Signed(errors) => LweErrorsRef::Signed(numbers(errors, i, 1)),
        }
    }
}
