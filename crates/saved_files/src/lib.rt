// Saved files, read whole into rooms that the caller lends.
#![tactic(auto)]

ghost use Rattle.std.specs.Prelude.{◌≡◌, MatchOption};
ghost use Rattle.scheme.specs.Numbers.{pick};
ghost use Rattle.saved_head.specs.Head.{file_fails};

use check_order::Refusal;
use lwe_tag::LweTag;
pub use saved::SavedWord;
use saved_head::Head;
use std::fmt;
use std::rt::Files;

// The programs take files of at most 65,536 bytes. A room has one byte more: no whole file has that length, so a
// longer one is refused too (odd_length of saved_head).
pub const ROOM: usize = 65537;

// What stands under a name: nothing that can be opened, bytes that are no whole file, or a whole one.
// Stays: no Result: `Whole` is no success, since a whole file of another kind is refused by 19 too.
#[derive(Clone, Copy)]
pub enum Stored {
    Missing,
    Broken,
    Whole,
}

// Why 19 refuses it.
impl fmt::Display for Stored {
    fn fmt<W: fmt::Write>(&self, f: &mut fmt::Formatter<W>) -> fmt::Result {
        f.write_str(match self {
            Stored::Missing => "there is no such file, or it cannot be opened",
            Stored::Broken => "not a whole file of this layout: cut off, too long or another one",
            Stored::Whole => "a file of another kind, modulus or plaintext modulus",
        })
    }
}

// Of how many ciphertexts a program is told the tags.
pub const TAGS: usize = 4;

// A file's refusal and why, its head, the tags of its first ciphertexts, the checksum of its bytes, its words, and the room that they
// stand in, with what follows them in the file and then zeros.
// Stays: no Result: of a refused file the head, the tags and the checksum are told too; and both refusal and stored:
// the one is what a call answers, the other why, in words.
#[derive(Clone, Copy)]
pub struct Loaded<'a, W> {
    pub refusal: Result<(), Refusal>,
    pub stored: Stored,
    pub head: Head,
    pub tags: [LweTag; TAGS],
    pub checksum: u32,
    pub words: &'a [W],
    pub room: &'a [W],
}

fn checksum(bytes: &[u8]) -> u32 {
    bytes.iter().fold(
        0,
        |sum: u32, byte| sum.wrapping_mul(16777619).wrapping_add(u32::from(*byte)),
    )
}

// What the bytes of a file are; none where it cannot be opened.
pub fn stored_as(file: Option<&[u8]>) -> Stored
    ensures { MatchOption file.entry (result ≡ Stored.Missing)
        (λ bytes. result ≡ pick (file_fails bytes.now) Stored.Broken Stored.Whole) }
{
    match file {
        None => Stored::Missing,
        Some(bytes) if saved_head::file_refused(bytes) => Stored::Broken,
        Some(_) => Stored::Whole,
    }
}

fn first_tags(bytes: &[u8]) -> [LweTag; TAGS] {
    let mut tags = [LweTag::untallied(); TAGS];
    for (i, tag) in tags.iter_mut().enumerate() {
        *tag = saved::tag_at(bytes, i);
    }
    tags
}

// A file with its words, as many as there is room for.
pub fn load<'a, W: SavedWord>(
    rt: &(impl Files + Eprint),
    path: &[u8],
    words: &'a mut [W],
) -> Loaded<'a, W> {
    let mut room = [0u8; ROOM];
    let file = programs::read_file(rt, path, &mut room);
    let bytes = file.unwrap_or(&[]);
    let head = saved_head::head_of(bytes);
    saved::words_to(bytes, words);
    let count = words.len().min(head.words as usize);
    Loaded {
        refusal: saved_head::file_refusal(bytes),
        stored: stored_as(file),
        head,
        tags: first_tags(bytes),
        checksum: checksum(bytes),
        words: &words[..count],
        room: words,
    }
}
