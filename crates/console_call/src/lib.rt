// The lines of a console that call the card with the memory that it is lent.
#![tactic(auto)]

use card::Card;
use console_answer::block;
use console_read::call::{Input, read};
use replay_answer::{Replayed, take};
use replay_line::{command, play};

// A block of any size, a frame with chip select low, a take in either bus mode; every other line as in the replay program.
pub fn call(card: Card, memory: &mut [u8], line: &[u8], text: &mut [u8]) -> Replayed {
    let mut bytes = [0u8; 520];
    match read(line, &mut bytes) {
        Some(Input::Blk(packet)) => block(card, memory, packet, text),
        Some(Input::Low(frame)) => command(card, memory, frame, true, text),
        // as long as row 4 asks for in SPI mode
        Some(Input::Take) => take(card, memory, &mut [0; 515], text),
        None => play(card, memory, line, text),
    }
}
