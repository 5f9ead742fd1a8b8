// Runs the program on each stored input, run01 to run40, as scripts/readings_runs.py made them.
#![tactic(auto)]

use arrayvec::ArrayString;
use std::fmt::Write;

fn replay(rt: &HostRuntime, n: u32) {
    let mut name = ArrayString::<16>::new();
    let _ = write!(name, "run{n:02}");
    // Two writes: where one fails, the other is tried.
    programs::write(rt, b"run");
    let _ = println!(rt; " {n:02}");
    if let Some(mut file) = programs::open_named(rt, name.as_str()) {
        readings_files::run(&mut file, &mut rt.stdout());
    }
}

fn main(rt: HostRuntime) {
    for n in 1..41 {
        replay(&rt, n);
    }
}
