// A total: messages encrypted to the places of the buffer, ciphertexts added to each other there, and the one at the first place marked and
// opened, all with the tags that the calls answer. Operand c has three words for each encryption, E, embedding and message, two for each
// addition, and what the total's tag says.
use crate::kind::Form;
use crate::record::Record;
use crate::said::Said;
use crate::tags;
use crate::tags::Carried;
use check_order::Refusal;
use primus_encoding::PlaintextEmbedding;
use primus_lattice::LweTag;

// The most encryptions, and the most words of a ciphertext.
const ROOM: usize = 32;

// A place of the buffer; none past the end.
fn place(out: &mut [u32], i: usize, width: usize) -> &mut [u32] {
    let start = i.wrapping_mul(width);
    match out.get_mut(start..start.wrapping_add(width)) {
        Some(words) => words,
        None => &mut [],
    }
}

fn embedding(number: u32) -> PlaintextEmbedding {
    match number {
        0 => PlaintextEmbedding::Unsigned,
        _ => PlaintextEmbedding::Centered,
    }
}

fn encrypt(r: &Record, form: Form, i: usize, out: &mut [u32]) -> Result<LweTag, Refusal> {
    let n = r.head.n;
    let numbers = tags::part(r.c, i, 3);
    let mut params = r.head.parameters();
    params.error_limit = tags::word(numbers, 0);
    primus_lwe::encrypt_message_to(
        params,
        embedding(tags::word(numbers, 1)),
        form.key(r),
        tags::part(r.b, i, n),
        r.error_at(i),
        tags::word(numbers, 2),
        place(out, i, n.wrapping_add(1)),
    )
}

fn encrypt_each(
    r: &Record,
    form: Form,
    tags: &mut [LweTag],
    out: &mut [u32],
) -> Result<(), Refusal> {
    for (i, tag) in tags.iter_mut().enumerate() {
        *tag = encrypt(r, form, i, out)?;
    }
    Ok(())
}

fn copied<'a>(words: &[u32], room: &'a mut [u32]) -> &'a [u32] {
    for (to, from) in room.iter_mut().zip(words) {
        *to = *from;
    }
    let count = room.len().min(words.len());
    &room[..count]
}

fn tag_at(tags: &[LweTag], i: usize) -> LweTag {
    tags.get(i).copied().unwrap_or(LweTag::untallied())
}

// The ciphertext at the second place of the two is added to that at the first.
fn add(r: &Record, places: &[u32], tags: &mut [LweTag], out: &mut [u32]) -> Result<(), Refusal> {
    let h = r.head;
    let (i, j) = (
        tags::word(places, 0) as usize,
        tags::word(places, 1) as usize,
    );
    let width = h.n.wrapping_add(1);
    let mut room = [0; ROOM];
    let y = copied(tags::part(out, j, width), &mut room);
    let x = place(out, i, width);
    let dimension = h.parameters().dimension;
    let (x_tag, y_tag) = (tag_at(tags, i), tag_at(tags, j));
    let sum = primus_lattice::add_assign(h.modulus, dimension, x, x_tag, y, y_tag)?;
    if let Some(tag) = tags.get_mut(i) {
        *tag = sum;
    }
    Ok(())
}

fn add_each(
    r: &Record,
    additions: &[u32],
    tags: &mut [LweTag],
    out: &mut [u32],
) -> Result<(), Refusal> {
    for places in additions.chunks_exact(2) {
        add(r, places, tags, out)?;
    }
    Ok(())
}

// The total's tag is what the record says, and so is its mark.
fn told(tag: LweTag, good: bool, end: &[u32]) -> bool {
    Carried::from(tag) == tags::expected(tags::from(end, 1), 0, 0)
        && u32::from(good) == tags::word(end, 0)
}

// What the total opens to; none where its tag or its mark is another than the record's.
fn opened(
    r: &Record,
    form: Form,
    tags: &mut [LweTag],
    out: &mut [u32],
) -> Result<Option<u32>, Refusal> {
    let h = r.head;
    encrypt_each(r, form, tags, out)?;
    let rest = tags::from(r.c, tags.len().wrapping_mul(3));
    let additions = tags::part(rest, 0, h.m.wrapping_mul(2));
    add_each(r, additions, tags, out)?;
    let tag = tag_at(tags, 0);
    let good = tag.is_good(h.modulus, h.t)?;
    let total = tags::part(out, 0, h.n.wrapping_add(1));
    let message = primus_lwe::decrypt_message(h.decryption_parameters(), form.key(r), total)?;
    Ok(told(tag, good, tags::from(rest, additions.len())).then_some(message))
}

pub(crate) fn total(r: &Record, form: Form, out: &mut [u32]) -> Said {
    let mut room = [LweTag::untallied(); ROOM];
    let count = ROOM.min(r.head.value as usize);
    opened(r, form, &mut room[..count], out).transpose()
}
