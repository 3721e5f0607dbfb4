// The loop over an input, on any card.
#![tactic(auto)]

use card::Card;
use replay_answer::bench::bench;
use replay_answer::{Replayed, Session};
use replay_run::{Listener, Program, hear_input};
use replay_session::{Player, hear_all_with};
use replay_write::zeros;
use std::io::Read;

// The lines of the console, of which nothing is promised but safety.
#[derive(Clone, Copy)]
pub struct Console;

impl Player for Console {
    ghost plays = { λ w line text x. Unit {0} };

    fn play(&self, card: Card, memory: &mut [u8], line: &[u8], text: &mut [u8]) -> Replayed {
        console_line::play(card, memory, line, text)
    }
}

impl Listener for Console {
    fn hear(
        &self,
        s: Session,
        memory: &mut [u8],
        line: &mut [u8],
        text: &mut [u8],
        chunk: &[u8],
    ) -> Session {
        hear_all_with(s, memory, line, text, chunk, self)
    }
}

pub fn run<R: Read>(input: &mut R) -> std::io::Result<()> {
    // 2,048 blocks
    let mut memory = zeros::<1048576>();
    let mut line = [0u8; 1045];
    hear_input(input, bench(&zeros()), &mut memory, &mut line, &Console)
}

impl Program for Console {
    fn run<R: Read>(&self, input: &mut R) -> std::io::Result<()> {
        run(input)
    }
}
