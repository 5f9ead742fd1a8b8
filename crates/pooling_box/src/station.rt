// The box: it adds the shops' rows and switches the total. It holds the switching key and what came in, and no secret.
use crate::agreed::PLACES;
use crate::pool::Pool;
use crate::reasons;
use check_order::Refusal;
use key_switch_parameters::LweKeySwitchingParameters;
use pooling::{LweDecryptionParameters, LweTag};
use primus_decompose::ApproxSignedBasis;
use primus_lattice::LweDimension;
use primus_reduce::Modulus;
use programs::Pieces;
use saved_files::{ROOM, Stored};
use saved_head::{Head, Kind};
use std::fmt::Write;
use std::rt::Files;

const SHOPS: [&str; 9] = [
    "shop_1", "shop_2", "shop_3", "shop_4", "shop_5", "shop_6", "shop_7", "shop_8", "shop_9",
];

// What the box sends on, modulo q.
#[derive(Clone, Copy)]
pub(crate) struct Sent<'a> {
    pub(crate) words: &'a [u32],
    pub(crate) modulus: Modulus,
}

// Adds the rows and prints the marks.
fn collect(rt: &(impl Files + Print + Eprint), pool: &mut Pool) {
    let mut bytes = [0u8; ROOM];
    let _ = println!(rt; "the box adds the shops' rows of four encrypted counts:");
    for name in &SHOPS {
        let file = programs::read_file(rt, name.as_bytes(), &mut bytes);
        let answer = pool.add(file.unwrap_or(&[]));
        reasons::told_file(rt, name, answer, saved_files::stored_as(file));
    }
    let _ = writeln!(Pieces(rt), "rows added: {}", pool.rows);
    if pool.rows != 0 {
        let _ = println!(rt; "the total before the switch:");
        pool.print_marks(rt);
    }
}

// Adds, and switches the total into `room`; none where there is nothing to send.
fn serve<'a>(
    rt: &(impl Files + Print + Eprint),
    params: LweKeySwitchingParameters,
    agreed: LweDecryptionParameters,
    key: &[u32],
    total: &mut [u32],
    room: &'a mut [u32],
) -> Option<Sent<'a>> {
    let mut pool = Pool {
        params: agreed,
        total,
        tags: [LweTag::untallied(); PLACES],
        rows: 0,
    };
    collect(rt, &mut pool);
    if pool.rows == 0 {
        let _ = println!(rt; "no row was accepted, so there is nothing to send");
        return None;
    }
    let _ = println!(rt; "the box switches the total to the group's key and sends it on");
    if let Err(reason) = pool.switch(params, key, room) {
        reasons::told(rt, "the switch", Err(reason));
        return None;
    }
    Some(Sent {
        words: room,
        modulus: agreed.modulus,
    })
}

// The words of four ciphertexts, where there is room for them.
fn four_of(dimension: LweDimension, room: &mut [u32]) -> Option<&mut [u32]> {
    let width = dimension.get().checked_add(1)?.checked_mul(PLACES)?;
    room.get_mut(..width)
}

fn parameters(h: Head) -> Result<LweKeySwitchingParameters, Refusal> {
    if h.kind != Kind::SwitchingKey {
        return Err(Refusal::Unreadable);
    }
    LweKeySwitchingParameters::try_new(
        ApproxSignedBasis::given(h.modulus, h.base_log, h.levels),
        LweDimension::given(h.n),
        LweDimension::given(h.m),
    )
}

// Serves with a whole file of a switching key. A total of four ciphertexts of n + 1 words is switched to four of m + 1. No
// judged dimension needs more than the rooms have.
fn with_file<'a>(
    rt: &(impl Files + Print + Eprint),
    h: Head,
    t: u32,
    key: &[u32],
    room: &'a mut [u32],
) -> Option<Sent<'a>> {
    let params = match parameters(h) {
        Ok(params) => params,
        Err(reason) => {
            reasons::told_file(rt, "switching_key", Err(reason), Stored::Whole);
            return None;
        }
    };
    let mut words = [0u32; 8196];
    let total = four_of(params.input_dimension, &mut words)?;
    let room = four_of(params.output_dimension, room)?;
    let agreed = LweDecryptionParameters {
        modulus: h.modulus,
        dimension: params.input_dimension,
        plaintext_modulus: t,
    };
    serve(rt, params, agreed, key, total, room)
}

// The switched total goes into `room`. Stays: rt and room alone, here and in what is called: the room outlives each of them, as it is main's.
pub(crate) fn run<'a>(
    rt: &(impl Files + Print + Eprint),
    t: u32,
    room: &'a mut [u32],
) -> Option<Sent<'a>> {
    let mut key = [0u32; 16368];
    let l = saved_files::load(rt, b"switching_key", &mut key);
    if l.refusal.is_err() {
        reasons::told_file(rt, "switching_key", l.refusal, l.stored);
        return None;
    }
    with_file(rt, l.head, t, l.words, room)
}
