// Vectors of the SCR, the OCR and the size pair.
#![tactic(auto)]

mod registers_of;
mod sizes;

use std::io;

fn all(rt: &impl Print) -> io::Result<()> {
    registers_of::scrs(rt)?;
    registers_of::ocrs(rt)?;
    sizes::run(rt)
}

// A line that cannot be written ends the run, and is no error.
fn main(rt: HostRuntime) {
    let _ = all(&rt);
}
