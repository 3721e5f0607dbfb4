// A call's record, and its answer as a line of output. The call of a frame is in replay_line, since it rests on all commands.
#![tactic(auto)]

ghost use Rattle.std.specs.Prelude.{◌≡◌, List, ℕ};
ghost use Rattle.card.specs.Step.{world, block_in, take_block, busy_over};
ghost use Rattle.card_call.specs.Seen.{returned, stepped};
ghost use Rattle.replay_write.specs.declared.Kind.TheVariants.{Response, Block};
ghost use Rattle.replay_write.specs.Write.{refusal};
ghost use Rattle.replay_answer.specs.Played.{played, shown, on_text};

pub mod bench;

use card::Card;
use card_call::{Stepped, refused};
use codec::Refusal;
use replay_write::Kind;

// A session with the card: how much of a line has arrived, and how much of the text is answers. Line and text are lent beside it, as the
// claims about sessions have them: fixed memory, no heap.
#[derive(Clone, Copy)]
pub struct Session {
    pub card: Card,
    pub count: usize,
    pub wrote: usize,
}

#[derive(Clone, Copy)]
pub struct Replayed {
    pub card: Card,
    // how many bytes of the text were written
    pub wrote: Result<usize, Refusal>,
}

// What a call returned, with its answer on a line.
pub fn answer_line(kind: Kind, s: Stepped, out: &[u8], text: &mut [u8]) -> Replayed
    ensures { (memory : List ℕ)
        → shown result memory text.new ≡ on_text (played kind (returned s memory out.now)) text.old }
{
    Replayed {
        card: s.card,
        wrote: replay_write::write(kind, s.answer, out, text),
    }
}

// A line that cannot be read calls nothing.
pub fn unreadable(card: Card, text: &mut [u8]) -> Replayed
    ensures { (memory : List ℕ)
        → shown result memory text.new ≡ on_text (record { world = world card memory; text = refusal 1 }) text.old }
{
    answer_line(Kind::Response, refused(card, Refusal::Size), &[], text)
}

pub fn block(card: Card, memory: &mut [u8], bytes: &[u8], text: &mut [u8]) -> Replayed
    ensures { shown result memory.new text.new
        ≡ on_text (played Response (stepped card memory.old (block_in bytes.now))) text.old }
{
    let s = card_block_in::block_in(card, bytes, memory);
    answer_line(Kind::Response, s, &[], text)
}

// Into an output buffer of any size.
pub fn take(card: Card, memory: &[u8], out: &mut [u8], text: &mut [u8]) -> Replayed
    ensures answered { shown result memory.now text.new
        ≡ on_text (played Block (stepped card memory.now (take_block out.old))) text.old }
    ensures buffer { out.new ≡ (stepped card memory.now (take_block out.old)).out }
{
    let s = card_take::take(card, memory, out);
    answer_line(Kind::Block, s, out, text)
}

pub fn over(card: Card, memory: &[u8], text: &mut [u8]) -> Replayed
    ensures { shown result memory.now text.new
        ≡ on_text (played Response (stepped card memory.now busy_over)) text.old }
{
    let s = card_power::busy_over(card, memory);
    answer_line(Kind::Response, s, &[], text)
}
