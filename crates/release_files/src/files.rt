// The files of a release, and the line that the program writes about each.
use arrayvec::ArrayString;
use check_order::Refusal;
use primus_lattice::LweTag;
use programs::Pieces;
use saved_files::{Loaded, SavedWord, TAGS};
use saved_head::{Head, Kind};
use std::fmt;
use std::fmt::Write;

// What is wrong with a file: a call refuses it, or it is not as saved.
#[derive(Clone, Copy)]
pub(crate) enum Fault {
    Refused(Refusal),
    Differs,
}

impl From<Refusal> for Fault {
    fn from(reason: Refusal) -> Fault {
        Fault::Refused(reason)
    }
}

// The end of its line, with its newline.
// Stays: a refusal's number, no Display: the program's stdout, which stays, has no meaning beside it.
impl fmt::Display for Fault {
    fn fmt<W: fmt::Write>(&self, f: &mut fmt::Formatter<W>) -> fmt::Result {
        match self {
            Fault::Refused(reason) => writeln!(f, "REFUSED {}", u32::from(*reason)),
            Fault::Differs => writeln!(f, "DIFFERS"),
        }
    }
}

pub(crate) fn agrees(as_saved: bool) -> Result<(), Fault> {
    if as_saved {
        Ok(())
    } else {
        Err(Fault::Differs)
    }
}

// The tags of its ciphertexts: a packed one has one, and what is no ciphertext none.
pub(crate) fn tags_of(h: Head, tags: &[LweTag; TAGS]) -> &[LweTag] {
    match h.kind {
        Kind::Ciphertexts => &tags[..TAGS.min(h.count as usize)],
        Kind::Packed => &tags[..1],
        _ => &[],
    }
}

// The files of one modulus. Stays: no method for each kind of file: it would stand in the modules of keys and of ciphertexts all the same.
#[derive(Clone, Copy)]
pub(crate) struct Folder<'a> {
    pub(crate) rt: &'a HostRuntime,
    pub(crate) path: &'a str,
}

impl Folder<'_> {
    // A file with its words. A path of the program has 64 bytes at most.
    pub(crate) fn load<'w, W: SavedWord>(
        self,
        name: &str,
        suffix: &str,
        words: &'w mut [W],
    ) -> Loaded<'w, W> {
        let mut path = ArrayString::<64>::new();
        let _ = write!(path, "{}{name}{suffix}", self.path);
        saved_files::load(self.rt, path.as_bytes(), words)
    }

    // ", tally 3, c 1 (good)"; a refusal by its number alone, as at the end of a line.
    fn tell_tag(self, h: Head, tag: LweTag) {
        let mut out = Pieces(self.rt);
        let _ = match tag.tally() {
            Some(tally) => write!(out, ", tally {tally}, c {}", tag.count()),
            None => write!(out, ", no tally, c {}", tag.count()),
        };
        let _ = match tag.is_good(h.modulus, h.plaintext_modulus) {
            Ok(true) => write!(out, " (good)"),
            Ok(false) => write!(out, " (not good)"),
            Err(reason) => write!(out, " refused {}", u32::from(reason)),
        };
    }

    // The first tag, and each that differs from the one before it.
    fn tell_tags(self, h: Head, tags: &[LweTag]) {
        let mut before = None;
        for tag in tags {
            if before != Some(*tag) {
                self.tell_tag(h, *tag);
            }
            before = Some(*tag);
        }
    }

    // "folder/name: kind 5, 100 words, tally 3, c 1 (good), checksum 1234: ".
    pub(crate) fn begin<W: SavedWord>(self, name: &str, l: Loaded<W>) {
        let mut out = Pieces(self.rt);
        let _ = write!(
            out,
            "{}{name}: kind {}, {} words",
            self.path,
            u32::from(l.head.kind),
            l.head.words
        );
        self.tell_tags(l.head, tags_of(l.head, &l.tags));
        let _ = write!(out, ", checksum {}: ", l.checksum);
    }

    // The end of a line.
    pub(crate) fn end(self, good: &str, verdict: Result<(), Fault>) {
        let mut out = Pieces(self.rt);
        let _ = match verdict {
            Ok(()) => writeln!(out, "{good}"),
            Err(fault) => write!(out, "{fault}"),
        };
    }
}
