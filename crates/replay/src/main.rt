// Plays the schedule on standard input and prints each line's answer, then the register; here document 01's sample.
// `tools/run-schedule` runs this program on a schedule of one's own.
#![tactic(auto)]

use std::io;

fn main(rt: HostRuntime) -> io::Result<()> {
    streaming::replay(&mut rt.stdin(), &rt.stdout())
}
