// A message encrypted and opened, and one that is refused. The expected words are worked out by hand from the scheme's definition:
// encode(5) = 5 × 2^28, so the body is 3 × 1000000007 − 123456789 − 3 + 1342177280 modulo 2^32.
#![tactic(auto)]

use check_order::Refusal;
use primus_encoding::PlaintextEmbedding;
use primus_lattice::{LweDimension, LweTag};
use primus_lwe::{
    LweErrorsRef, LweParameters, LweSecretKeyRef, decrypt_message, encrypt_message_to,
};
use primus_reduce::Modulus;
use std::io;

const SECRET: [u32; 2] = [3, 0xffff_ffff];

fn encrypt(params: LweParameters, message: u32, out: &mut [u32]) -> Result<LweTag, Refusal> {
    let key = LweSecretKeyRef::Encoded(&SECRET);
    let embedding = PlaintextEmbedding::Unsigned;
    let mask = [1000000007, 123456789];
    let errors = LweErrorsRef::Signed(&[-3]);
    encrypt_message_to(params, embedding, key, &mask, errors, message, out)
}

// What was written has a tally, E, and is one encryption; a refused call gives no tag.
// Stays: a refusal's number, no Display: the program's stdout has no meaning beside it.
fn tell(rt: &impl Print, answer: Result<LweTag, Refusal>) -> io::Result<()> {
    match answer.map(|tag| (tag.tally(), tag.count())) {
        Ok((Some(tally), count)) => println!(rt; "tally {tally}, c {count}"),
        Ok((None, count)) => println!(rt; "no tally, c {count}"),
        Err(refusal) => println!(rt; "refused {}", u32::from(refusal)),
    }
}

fn open(rt: &impl Print, params: LweParameters, ciphertext: &[u32]) -> io::Result<()> {
    let key = LweSecretKeyRef::Encoded(&SECRET);
    match decrypt_message(params.into(), key, ciphertext) {
        Ok(message) => println!(rt; "message {message}"),
        Err(refusal) => println!(rt; "refused {}", u32::from(refusal)),
    }
}

fn run(rt: &impl Print, params: LweParameters) -> io::Result<()> {
    let mut out = [0; 3];
    tell(rt, encrypt(params, 5, &mut out))?;
    println!(rt; "body {}", out[2])?;
    open(rt, params, &out)?;
    tell(rt, encrypt(params, 16, &mut out))?;
    println!(rt; "body {}", out[2])?;
    open(rt, params, &out[..2])
}

// n = 2, native, t = 16, E = 3.
fn parameters() -> Result<LweParameters, Refusal> {
    LweParameters::try_new(LweDimension::try_new(2)?, Modulus::Native, 16, 3)
}

fn main(rt: HostRuntime) -> io::Result<()> {
    match parameters() {
        Ok(params) => run(&rt, params),
        Err(refusal) => println!(rt; "refused {}", u32::from(refusal)),
    }
}
