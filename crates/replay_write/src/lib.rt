// The replay program's lines of output.
#![tactic(auto)]

ghost use Rattle.std.specs.Prelude.{◌≡◌, ◌+◌, ◌≤◌, min, length, replicate};
ghost use Rattle.codec.specs.Answer.{encoded, encoding};
ghost use Rattle.card.specs.Step as Step;
ghost use Rattle.replay_write.specs.Write.{write_line, size, place};
ghost use Rattle.replay_write.specs.Write as Write;

mod hex;
mod text;

use card::answer::Answer;
use codec::{Refusal, front};
use text::{bytes_line, put, refusal};

// What is sent is a command, a response, a data block, or a block of the program's memory.
#[derive(Clone, Copy, Debug, PartialEq, Eq)]
pub enum Kind {
    Command,
    Response,
    Block,
    Memory,
}

// The line of an answer, whose bytes are in `out`; refused with 4 where the text has no room for it.
pub fn write(kind: Kind, answer: Answer, out: &[u8], text: &mut [u8]) -> Result<usize, Refusal>
    ensures { encoding result text.new ≡ write_line kind (Step.answer answer) out.now text.old }
{
    match answer {
        Answer::Silence | Answer::Over => put(b"none\n", text),
        Answer::Sent(n) => bytes_line(kind, front(out, n), text),
        Answer::Accepted => put(b"ack\n", text),
        Answer::Rejected => put(b"nak\n", text),
        Answer::Refused(why) => refusal(why, text),
    }
}

// The longest line of output, with its newline.
pub const ROOM: usize = 1035;

// Where a text ends, of so many bytes, with the line that was written at `at`.
pub fn end(at: usize, line: Result<usize, Refusal>, bytes: usize) -> usize
    ensures { result ≡ min (at + size (encoded line)) bytes }
{
    at.saturating_add(line.unwrap_or(0)).min(bytes)
}

// Where the next line goes in a text whose first `count` bytes are lines. Where the room behind them is short they are written
// to standard output first, which no contract speaks of.
pub fn place(text: &[u8], count: usize) -> usize
    ensures { (result ≡ place (length text.now) count) × (result ≤ length text.now) }
{
    // no sum of lengths is made before it is known to fit
    if count <= text.len() && text.len() - count >= ROOM {
        return count;
    }
    io::write_all(1, front(text, count));
    0
}

// Large arrays come from here: as literals in a loop's function they cost the prover ten seconds and more.
pub fn zeros<const N: usize>() -> [u8; N]
    ensures { (N ≡ length result) × (result ≡ replicate N 0) }
{
    [0; N]
}
