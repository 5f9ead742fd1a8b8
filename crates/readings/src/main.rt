// The program `readings`: standard input to standard output.
#![tactic(auto)]

fn main(rt: HostRuntime) {
    readings_files::run(&mut rt.stdin(), &mut rt.stdout());
}
