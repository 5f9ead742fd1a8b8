// The buyers: they have the group's secret, and see only the switched total.
use crate::agreed::PLACES;
use crate::reasons;
use crate::station::Sent;
use check_order::Refusal;
use primus_lattice::LweDimension;
use primus_lwe::LweDecryptionParameters;
use primus_lwe_batch::decrypt_message_batch_to;
use primus_reduce::Modulus;
use programs::Pieces;
use saved_head::{Head, Kind};
use std::fmt::Write;
use std::rt::Files;

const MARKS: &str = "\
a total that is marked good above opens to the sum, modulo t, of what the
shops encrypted, whatever was rounded; a switched ciphertext has no tally, so
the opened total is never marked good itself: it rests on the marks above, on
the errors and numbers of encryptions that the shops declare, and on the bound
of the switching error";

fn print_marks(rt: &impl Print) {
    for line in MARKS.lines() {
        let _ = println!(rt; "{line}");
    }
}

fn print_totals(rt: &impl Print, counts: [u32; PLACES]) {
    let _ = println!(rt; "the buyers open it with the group's secret:");
    for (i, count) in counts.iter().enumerate() {
        let _ = writeln!(Pieces(rt), "  casting {}: {count}", i + 1);
    }
    print_marks(rt);
}

// Opens what was sent, under a secret that is in order.
fn with_secret(h: Head, t: u32, secret: &[u32], sent: &[u32]) -> Result<[u32; PLACES], Refusal> {
    let params = LweDecryptionParameters {
        dimension: LweDimension::try_new(h.n)?,
        modulus: h.modulus,
        plaintext_modulus: t,
    };
    let mut counts = [0; PLACES];
    decrypt_message_batch_to(params, secret, sent, &mut counts)?;
    Ok(counts)
}

// Not a secret of words, or of another modulus than the total: it would open to another total, with no refusal.
fn is_other(h: Head, modulus: Modulus) -> bool {
    h.kind != Kind::SecretKey || h.modulus != modulus
}

pub(crate) fn open(rt: &(impl Files + Print + Eprint), t: u32, sent: Sent) {
    let mut room = [0u32; 16368];
    let l = saved_files::load(rt, b"group_secret", &mut room);
    if l.refusal.is_err() || is_other(l.head, sent.modulus) {
        reasons::told_file(rt, "group_secret", Err(Refusal::Unreadable), l.stored);
        return;
    }
    match with_secret(l.head, t, l.words, sent.words) {
        Ok(counts) => print_totals(rt, counts),
        Err(reason) => reasons::told(rt, "the opening", Err(reason)),
    }
}
