// Ciphertexts, opened and compared with what they open to.
use crate::files::{Fault, Folder, agrees};
use check_order::Refusal;
use primus_lattice::LweDimension;
use primus_lwe::{LweDecryptionParameters, LweSecretKeyRef, decrypt_message};
use primus_lwe_batch::decrypt_message_batch_to;
use primus_lwe_packed::decrypt_message_packed;
use programs::Pieces;
use saved_files::{Loaded, SavedWord};
use saved_head::{Head, Kind};
use std::fmt::Write;

// What stands where no message could be opened: it differs from every message.
// Stays: no Option: the calls write words into the room, and a message is below t, so never 2^32 − 1.
const NONE: u32 = u32::MAX;

// The most ciphertexts that are opened under a signed secret: a file with more of them differs.
const SIGNED: usize = 64;

fn parameters(h: Head) -> Result<LweDecryptionParameters, Refusal> {
    Ok(LweDecryptionParameters {
        dimension: LweDimension::try_new(h.n)?,
        modulus: h.modulus,
        plaintext_modulus: h.plaintext_modulus,
    })
}

// A word of a secret, of which a run opens ciphertexts.
pub(crate) trait SecretWord: SavedWord {
    // The messages, as far as the room goes.
    fn open(l: Loaded<u32>, secret: Loaded<Self>, out: &mut [u32]) -> Result<(), Fault>;
}

// Ciphertexts of one message each, or a packed one.
impl SecretWord for u32 {
    fn open(l: Loaded<u32>, secret: Loaded<u32>, out: &mut [u32]) -> Result<(), Fault> {
        let params = parameters(l.head)?;
        if l.head.kind == Kind::Packed {
            decrypt_message_packed(params, secret.words, l.words, out)?;
        } else {
            decrypt_message_batch_to(params, secret.words, l.words, out)?;
        }
        Ok(())
    }
}

// Ciphertexts of one message each, row by row: the batch takes no signed secret.
impl SecretWord for i32 {
    fn open(l: Loaded<u32>, secret: Loaded<i32>, out: &mut [u32]) -> Result<(), Fault> {
        agrees(secret.head.words as usize <= secret.room.len())?;
        let params = parameters(l.head)?;
        agrees(out.len() <= SIGNED)?;
        let key = LweSecretKeyRef::Signed(secret.words);
        out.fill(NONE);
        let rows = l.room.chunks_exact(l.head.n.saturating_add(1));
        for (message, row) in out.iter_mut().zip(rows) {
            *message = decrypt_message(params, key, row).unwrap_or(NONE);
        }
        Ok(())
    }
}

// What refuses a file, the messages saved beside it, or those that it opens to.
fn told_verdict(
    l: Loaded<u32>,
    beside: Loaded<u32>,
    opening: Result<(), Fault>,
    out: &[u32],
) -> Result<(), Fault> {
    l.refusal?;
    beside.refusal?;
    opening?;
    agrees(beside.head.kind == Kind::Messages && beside.head.words == l.head.count)?;
    agrees(programs::same(out, beside.words, l.head.count as usize))
}

// The line of a file whose messages are in `out`: they are compared with those saved beside it.
fn tell(folder: Folder, name: &str, l: Loaded<u32>, opening: Result<(), Fault>, out: &[u32]) {
    let mut told = [0u32; 8192];
    let beside = folder.load(name, ".opens", &mut told);
    folder.begin(name, l);
    let _ = write!(
        Pieces(folder.rt),
        "{} messages, checksum {}: ",
        l.head.count,
        beside.checksum
    );
    folder.end("as saved", told_verdict(l, beside, opening, out));
}

// A file opened under a secret, which is read into the room for its words.
pub(crate) fn opened<W: SecretWord>(folder: Folder, name: &str, secret: &str, key: &mut [W]) {
    let mut words = [0u32; 8192];
    let mut room = [0u32; 8192];
    let k = folder.load(secret, "", key);
    let l = folder.load(name, "", &mut words);
    let count = room.len().min(l.head.count as usize);
    let out = &mut room[..count];
    let opening = W::open(l, k, out);
    tell(folder, name, l, opening, out);
}
