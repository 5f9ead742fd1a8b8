// The main job of a pooling box. Shops send rows of encrypted counts; the box adds the rows that are in order and switches
// the total to the buying group's key; the buyers open it. The box has no secret key: only `buyers` reads one.
#![tactic(auto)]

mod agreed;
mod buyers;
mod pool;
mod reasons;
mod station;

fn main(rt: HostRuntime) {
    let t = agreed::plaintext_modulus(&rt);
    let mut room = [0u32; 8196];
    if let Some(sent) = station::run(&rt, t, &mut room) {
        buyers::open(&rt, t, sent);
    }
}
