// Keys, each tried on what it was made for.
use crate::files::{Fault, Folder, agrees, tags_of};
use check_order::Refusal;
use key_switch::key_switch_batch_to;
use key_switch_parameters::LweKeySwitchingParameters;
use primus_lattice::{LweDimension, LweTag};
use primus_lwe::LwePhaseParameters;
use primus_lwe_batch::decrypt_phase_batch_to;
use saved_files::{Loaded, SavedWord};
use saved_head::{Head, Kind};

fn secret_verdict<W: SavedWord>(l: Loaded<W>, kind: Kind) -> Result<(), Fault> {
    l.refusal?;
    agrees(l.head.kind == kind)?;
    if l.head.words as usize != l.head.n {
        return Err(Fault::Refused(Refusal::KeyLength));
    }
    Ok(())
}

// A secret key of this kind, read into a room for its words.
pub(crate) fn secret<W: SavedWord>(
    folder: Folder,
    name: &str,
    kind: Kind,
    good: &str,
    room: &mut [W],
) {
    let l = folder.load(name, "", room);
    folder.begin(name, l);
    folder.end(good, secret_verdict(l, kind));
}

// A phase within ±E of 0, modulo q.
fn is_near(phase: u32, bound: u32, q: u64) -> bool {
    phase <= bound || q <= phase as u64 + bound as u64
}

// The n rows of a public key are encryptions of 0 under the secret.
fn rows_verdict(h: Head, secret: &[u32], key: &[u32]) -> Result<(), Fault> {
    let dimension = LweDimension::try_new(h.n)?;
    let params = LwePhaseParameters {
        dimension,
        modulus: h.modulus,
    };
    let mut room = [0u32; 8192];
    let (Some(secret), Some(phases)) = (secret.get(..h.n), room.get_mut(..h.n)) else {
        return Err(Fault::Differs);
    };
    decrypt_phase_batch_to(params, secret, key, phases)?;
    let q = h.modulus.size();
    agrees(phases.iter().all(|phase| is_near(*phase, h.error_limit, q)))
}

fn public_verdict(key: Loaded<u32>, secret: Loaded<u32>) -> Result<(), Fault> {
    key.refusal?;
    rows_verdict(key.head, secret.room, key.words)?;
    secret.refusal?;
    Ok(())
}

pub(crate) fn public_key(folder: Folder, name: &str, secret: &str) {
    let mut words = [0u32; 8192];
    let mut key = [0u32; 8192];
    let s = folder.load(secret, "", &mut words);
    let l = folder.load(name, "", &mut key);
    folder.begin(name, l);
    folder.end("rows that open to 0", public_verdict(l, s));
}

// The most ciphertexts of an input: each has two words or more.
const ROWS: usize = 4096;

// The tags that an input's ciphertexts are switched with: its own, as many as a program is told, and for the others none.
fn given<'a>(input: Loaded<u32>, n: usize, room: &'a mut [LweTag]) -> &'a mut [LweTag] {
    for (tag, own) in room.iter_mut().zip(tags_of(input.head, &input.tags)) {
        *tag = *own;
    }
    let rows = input.words.len() / n.saturating_add(1);
    let count = room.len().min(rows);
    &mut room[..count]
}

// The tags that an output is told with are those that the switch left.
fn carries(output: Loaded<u32>, left: &[LweTag]) -> bool {
    tags_of(output.head, &output.tags)
        .iter()
        .zip(left)
        .all(|(own, tag)| *own == *tag)
}

// The key switches the saved input to the saved output, word for word, and tag for tag.
fn switch_verdict(key: Loaded<u32>, input: Loaded<u32>, output: Loaded<u32>) -> Result<(), Fault> {
    key.refusal?;
    let h = key.head;
    let params = LweKeySwitchingParameters::given(h.modulus, h.base_log, h.levels, h.n, h.m);
    let mut room = [0u32; 8192];
    let count = room.len().min(output.words.len());
    let out = &mut room[..count];
    let mut room = [LweTag::untallied(); ROWS];
    let tags = given(input, h.n, &mut room);
    key_switch_batch_to(params, key.words, input.words, tags, out)?;
    agrees(programs::same(out, output.words, output.head.words as usize))?;
    agrees(carries(output, tags))?;
    agrees(h.kind == Kind::SwitchingKey)
}

pub(crate) fn switching_key(folder: Folder, name: &str, from: &str, to: &str) {
    let mut key = [0u32; 8192];
    let mut input = [0u32; 8192];
    let mut output = [0u32; 8192];
    let l = folder.load(name, "", &mut key);
    let x = folder.load(from, "", &mut input);
    let y = folder.load(to, "", &mut output);
    folder.begin(name, l);
    folder.end("switches as saved", switch_verdict(l, x, y));
}
