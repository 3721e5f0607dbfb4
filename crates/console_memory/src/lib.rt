// The console's memory: what is lent of it, and a block of it on a line.
#![tactic(auto)]

ghost use Rattle.std.specs.Prelude.{◌≡◌, ◌*◌, ◌≤◌, min};

use card::answer::Answer;
use card::size::BLOCK;
use codec::{Refusal, word32};
use replay_read::field;
use replay_write::{Kind, write};

// How many of so many bytes of memory are lent to a call: those of a card of `blocks` blocks, or all where there are fewer.
pub fn lent(blocks: u32, bytes: usize) -> usize
    ensures { (result ≡ min (blocks * 512) bytes) × (result ≤ bytes) }
{
    (blocks as usize * BLOCK as usize).min(bytes)
}

// A block of memory, by its number in 8 digits.
fn block<'a>(memory: &'a [u8], digits: &[u8]) -> Option<&'a [u8]> {
    let at = word32(&field::<4>(digits)?) as usize * 512;
    memory.get(at..at + 512)
}

// The block on a line. Where there is no such block the line cannot be read.
pub fn show(memory: &[u8], digits: &[u8], text: &mut [u8]) -> Result<usize, Refusal> {
    match block(memory, digits) {
        Some(block) => write(Kind::Memory, Answer::Sent(512), block, text),
        None => write(Kind::Response, Answer::Refused(Refusal::Size), &[], text),
    }
}
