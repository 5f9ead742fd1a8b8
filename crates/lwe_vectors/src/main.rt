// Compares the calls with data/lwe.bin and data/switch.bin, which scripts/lwe_vectors.py and switch_vectors.py make from
// the definition of the scheme and describe, and with data/oracle.bin, which holds what the Rust answered (oracle/sample.py).
#![tactic(auto)]

mod kind;
mod lattice;
mod packed;
mod record;
mod said;
mod single;
mod switch;
mod tags;
mod total;

use kind::Kind;
use programs::Pieces;
use record::{Head, Record, Room};
use said::Said;
use std::fmt::Write;
use std::io::Read;
use std::rt::Files;

// The call of a record, which writes to `out`.
// Stays: a match of one line a kind: each kind is a call with operands of its own, and `r`, `form` and `out` are all that it is handed.
fn call(kind: Kind, r: &Record, out: &mut [u32]) -> Said {
    match kind {
        Kind::Dimension => lattice::dimension(r.head),
        Kind::EncryptionParameters => lattice::encryption_parameters(r.head),
        Kind::Parameters => lattice::parameters(r.head),
        Kind::TallySum => lattice::tally_sum(r),
        Kind::Mark => lattice::mark(r),
        Kind::Sum => lattice::sum(r, out),
        Kind::Sample => lattice::sample(r, out),
        Kind::EncryptEncoded(form) => single::encrypt_encoded(r, form, out),
        Kind::Phase(form) => single::phase(r, form),
        Kind::EncryptMessage(form) => single::encrypt_message(r, form, out),
        Kind::DecryptMessage(form) => single::decrypt_message(r, form),
        Kind::PackEncoded => packed::encrypt_encoded(r, out),
        Kind::PackedPhases => packed::phases(r, out),
        Kind::BatchPhases => packed::batch_phases(r, out),
        Kind::PackMessages => packed::encrypt_messages(r, out),
        Kind::PackedMessages => packed::messages(r, out),
        Kind::EncryptBatch => packed::encrypt_batch(r, out),
        Kind::BatchMessages => packed::batch_messages(r, out),
        Kind::PublicKey(form) => single::public_key(r, form, out),
        Kind::PublicEncoded => single::public_encoded(r, out),
        Kind::PublicMessage => single::public_message(r, out),
        Kind::SwitchParameters => switch::parameters(r.head),
        Kind::SwitchingKey(form) => switch::key(r, form, out),
        Kind::Switch => switch::single(r, out),
        Kind::SwitchBatch => switch::batch(r, out),
        Kind::Entry => switch::entry(r, out),
        Kind::Saved => lattice::saved(r),
        Kind::Total(form) => total::total(r, form, out),
    }
}

// The call of the record in the rooms said what the record says, and left its buffer so.
fn agrees(head: Head, room: &mut Room) -> bool {
    let record = Record::of(head, &room.words, &room.numbers);
    let Some(out) = room.out.get_mut(..record.before.len()) else {
        return false;
    };
    out.copy_from_slice(record.before);
    let said = match Kind::named(head.kind) {
        Some(kind) => call(kind, &record, out),
        None => switch::unnamed(head),
    };
    said::agrees(said, head) && *out == *record.after
}

// What comes next in a file.
// Stays: an enum of three, as in codec_vectors: an end is no fault, and a record that differs is none either.
enum Outcome {
    Equal(u32),
    Differs(u32),
    End,
}

// A record that breaks off, or has more words than there is room for, differs.
// Stays: kind 0 for a head that is not there, no Option: it is printed so.
fn turn(input: &mut impl Read, room: &mut Room) -> Outcome {
    let Some(head) = Head::read(input) else {
        return Outcome::Differs(0);
    };
    if head.kind == 0 {
        return Outcome::End;
    }
    if head.fits() && room.fill(input, head.size()) && agrees(head, room) {
        Outcome::Equal(head.kind)
    } else {
        Outcome::Differs(head.kind)
    }
}

// How many records of each kind were equal, by its number, a byte; one with words for errors has a number of its own.
type Counts = [u32; 256];

// Compares records up to the first that differs; the answer is whether all are equal.
fn all(rt: &impl Print, input: &mut impl Read, room: &mut Room, counts: &mut Counts) -> bool {
    for number in 0..u32::MAX {
        match turn(input, room) {
            Outcome::End => return true,
            Outcome::Differs(kind) => {
                let _ = writeln!(Pieces(rt), "first that differs: record {number}");
                let _ = writeln!(Pieces(rt), "of kind {kind}");
                return false;
            }
            Outcome::Equal(kind) => {
                if let Some(count) = counts.get_mut(kind as usize) {
                    *count = count.wrapping_add(1);
                }
            }
        }
    }
    false
}

// Every record of a file is equal.
fn file(
    rt: &(impl Files + Print + Eprint),
    name: &str,
    room: &mut Room,
    counts: &mut Counts,
) -> bool {
    match programs::open_named(rt, name) {
        Some(mut file) => all(rt, &mut file, room, counts),
        None => false,
    }
}

// The kinds from 1 to 32, and the others that have a name and a record.
fn print(rt: &impl Print, counts: &Counts) {
    for (kind, count) in counts.iter().enumerate() {
        let told = *count != 0 && Kind::named(kind as u32).is_some();
        if told || (1..33).contains(&kind) {
            let _ = writeln!(Pieces(rt), "kind {kind}: {count}");
        }
    }
}

fn main(rt: HostRuntime) {
    let mut room = Room::new();
    let mut counts = [0; 256];
    let encryption = file(&rt, "lwe.bin", &mut room, &mut counts);
    let switching = file(&rt, "switch.bin", &mut room, &mut counts);
    let rust = file(&rt, "oracle.bin", &mut room, &mut counts);
    print(&rt, &counts);
    if encryption && switching && rust {
        let _ = println!(rt; "all equal");
    }
}
