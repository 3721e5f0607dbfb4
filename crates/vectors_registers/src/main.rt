// Vectors of the CSD and the CID.
#![tactic(auto)]

mod cids;
mod csds;

use std::io;

fn all(rt: &impl Print) -> io::Result<()> {
    csds::run(rt)?;
    cids::run(rt)
}

// A line that cannot be written ends the run, and is no error.
fn main(rt: HostRuntime) {
    let _ = all(&rt);
}
