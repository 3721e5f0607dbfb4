// Runs the worked samples of the standard and further computed vectors of the two checks and of packets through the
// public functions, and prints what comes out, a line each. tools/vectors.py works the lines out independently.
#![tactic(auto)]

mod checks;
mod packets;

use std::io;

fn all(rt: &impl Print) -> io::Result<()> {
    checks::run(rt)?;
    packets::run(rt)
}

// A line that cannot be written ends the run, and is no error.
fn main(rt: HostRuntime) {
    let _ = all(&rt);
}
