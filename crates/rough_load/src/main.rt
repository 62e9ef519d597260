// Prints a load as a schedule: reads the line `seed length method k p` from standard input.
#![tactic(auto)]

use std::io;

fn main(rt: HostRuntime) -> io::Result<()> {
    load_turns::print_load(&mut rt.stdin(), &rt.stdout())
}
