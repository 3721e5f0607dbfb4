// The loop over an input, on the card of the bench.
#![tactic(auto)]

mod hear_fn;
#[cfg(test)]
mod tests;

use card::Card;
use codec::front;
pub use hear_fn::HearFn;
use replay_answer::Session;
use replay_answer::bench::bench;
use replay_read::fill;
use replay_session::{Bench, hear_all};
use replay_write::zeros;
use std::fs::File;
use std::io::Read;
use std::rt::Files;

// What hears a chunk of the input.
pub trait Listener {
    fn hear(
        &self,
        s: Session,
        memory: &mut [u8],
        line: &mut [u8],
        text: &mut [u8],
        chunk: &[u8],
    ) -> Session;
}

impl Listener for Bench {
    fn hear(
        &self,
        s: Session,
        memory: &mut [u8],
        line: &mut [u8],
        text: &mut [u8],
        chunk: &[u8],
    ) -> Session {
        hear_all(s, memory, line, text, chunk)
    }
}

// Hands each chunk of the input to the listener, and writes the answers to it at once. A proved loop has to end: it counts its reads
// to a number that no run uses up.
pub fn hear_input<R: Read, L: Listener>(
    input: &mut R,
    card: Card,
    memory: &mut [u8],
    line: &mut [u8],
    listener: &L,
) -> std::io::Result<()> {
    // room for the answers to any 4,096 bytes, which are the longest where all are `take`s
    let mut text = zeros::<1048576>();
    let mut chunk = io::buffer();
    let mut s = Session {
        card,
        count: 0,
        wrote: 0,
    };
    for _ in 0..u64::MAX {
        let n = fill(input, &mut chunk, s.count)?;
        if n == 0 {
            break;
        }
        s = listener.hear(s, memory, line, &mut text, &chunk[..n]);
        io::write_all(1, front(&text, s.wrote));
        s.wrote = 0;
    }
    Ok(())
}

pub fn run<R: Read>(input: &mut R) -> std::io::Result<()> {
    let mut memory = zeros();
    let mut line = [0u8; 1033];
    let card = bench(&memory);
    hear_input(input, card, &mut memory, &mut line, &Bench)
}

// A program that plays an input from its beginning.
pub trait Program {
    fn run<R: Read>(&self, input: &mut R) -> std::io::Result<()>;
}

impl Program for Bench {
    fn run<R: Read>(&self, input: &mut R) -> std::io::Result<()> {
        run(input)
    }
}

// A program that plays a stored history from its file, whatever a file is.
pub trait FileProgram<F> {
    fn play(&self, file: &mut F) -> std::io::Result<()>;
}

impl<F: Read, P: Program> FileProgram<F> for P {
    fn play(&self, file: &mut F) -> std::io::Result<()> {
        self.run(file)
    }
}

// Plays stored histories one after the other, each from its beginning. Of one that cannot be opened it says so, and goes on.
pub fn stored<R: Files + Print + Eprint, P: FileProgram<R::File>>(
    rt: &R,
    names: &[&str],
    program: &P,
) -> std::io::Result<()> {
    for name in names {
        match File::open(rt, *name) {
            Ok(mut file) => {
                let _ = println!(rt; "# {name}");
                program.play(&mut file)?;
            }
            Err(error) => eprintln!(rt; "{name}: {error}")?,
        }
    }
    Ok(())
}
