// The tags of a record, in its operand c: those that a call is lent, four words each, and then what those say that it answers or leaves.
use crate::record::Record;
use primus_lattice::LweTag;

// What a tag says, as a record has it: told by the tag's own functions, and compared here.
#[derive(Clone, Copy, PartialEq, Eq)]
pub(crate) struct Carried {
    pub(crate) tally: Option<u64>,
    pub(crate) count: u32,
}

impl From<LweTag> for Carried {
    fn from(tag: LweTag) -> Carried {
        Carried {
            tally: tag.tally(),
            count: tag.count(),
        }
    }
}

// The words from a place on; none past the end.
pub(crate) fn from(words: &[u32], start: usize) -> &[u32] {
    words.get(start..).unwrap_or(&[])
}

// The part at a place, of parts as long as each other; none past the end.
pub(crate) fn part(words: &[u32], i: usize, width: usize) -> &[u32] {
    let start = i.wrapping_mul(width);
    words.get(start..start.wrapping_add(width)).unwrap_or(&[])
}

// 0 past the end. Stays: no Option: an operand may be shorter, and a tag that begins with 0 has no tally.
pub(crate) fn word(words: &[u32], i: usize) -> u32 {
    words.get(i).copied().unwrap_or(0)
}

fn tally_at(words: &[u32], i: usize) -> u64 {
    u64::from(word(words, i)) + 0x1_0000_0000 * u64::from(word(words, i.wrapping_add(1)))
}

// The tag that is lent at a place: where it comes from, the low and the high word of a tally, and c.
// Stays: numbers of a file, read here alone.
pub(crate) fn lent(words: &[u32], i: usize) -> LweTag {
    let tag = part(words, i, 4);
    let (tally, count) = (tally_at(tag, 1), word(tag, 3));
    match word(tag, 0) {
        1 => LweTag::fresh(word(tag, 1)),
        2 => LweTag::saved(tally, Some(count)),
        3 => LweTag::saved(tally, None),
        4 => LweTag::saved(tally, Some(count)).without_tally(),
        _ => LweTag::untallied(),
    }
}

// What the tag at a place says, after those lent: three words, the tally's two, of 2^64 − 1 for none, and c.
pub(crate) fn expected(words: &[u32], lent: usize, i: usize) -> Carried {
    let tag = part(from(words, lent.wrapping_mul(4)), i, 3);
    Carried {
        tally: match tally_at(tag, 0) {
            u64::MAX => None,
            tally => Some(tally),
        },
        count: word(tag, 2),
    }
}

// The tags that a batch is lent, as many as the record's value says.
pub(crate) fn lend<'a>(r: &Record, room: &'a mut [LweTag]) -> &'a mut [LweTag] {
    let count = room.len().min(r.head.value as usize);
    let tags = &mut room[..count];
    for (i, tag) in tags.iter_mut().enumerate() {
        *tag = lent(r.c, i);
    }
    tags
}

// A served batch leaves the tags that the record says; a refused one leaves what it was lent.
pub(crate) fn left(r: &Record, tags: &[LweTag]) -> bool {
    let served = r.head.refusal == 0;
    tags.iter().enumerate().all(|(i, tag)| {
        if served {
            Carried::from(*tag) == expected(r.c, tags.len(), i)
        } else {
            *tag == lent(r.c, i)
        }
    })
}
