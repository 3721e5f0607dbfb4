// The replay of lines on the card: each line of input gives one call, and one line of output.
#![tactic(auto)]

ghost use Rattle.std.specs.Prelude.{◌≡◌, replicate};
ghost use Rattle.card.specs.Step.{command_frame};
ghost use Rattle.card_call.specs.Seen.{stepped};
ghost use Rattle.replay_write.specs.declared.Kind.TheVariants.{Response};
ghost use Rattle.replay_answer.specs.Played.{played, shown, on_text};
ghost use Rattle.replay_line.specs.Replay.{play_line};

use card::Card;
use codec::Refusal;
use replay_answer::{Replayed, answer_line, block, over, take, unreadable};
use replay_read::{Input, read};
use replay_write::{Kind, ROOM};

// A frame, with chip select low or high. Its output buffer is zero before the call.
pub fn command(card: Card, memory: &mut [u8], frame: &[u8], low: bool, text: &mut [u8]) -> Replayed
    ensures { shown result memory.new text.new
        ≡ on_text (played Response (stepped card memory.old (command_frame frame.now low (replicate 17 0))))
        text.old }
{
    let mut out: [u8; 17] = [0; 17];
    let s = card_command::command_frame(card, frame, low, memory, &mut out);
    answer_line(Kind::Response, s, &out, text)
}

pub fn play(card: Card, memory: &mut [u8], line: &[u8], text: &mut [u8]) -> Replayed
    ensures { shown result memory.new text.new
        ≡ play_line (record { card = card; memory = memory.old }) line.now text.old }
{
    if text.len() < ROOM {
        return Replayed {
            card,
            wrote: Err(Refusal::Buffer),
        };
    }
    match read(line) {
        Some(Input::Cmd(frame)) => command(card, memory, &frame, false, text),
        Some(Input::Blk(packet)) => block(card, memory, &packet, text),
        Some(Input::Take) => take(card, memory, &mut [0; 514], text),
        Some(Input::Over) => over(card, memory, text),
        None => unreadable(card, text),
    }
}
