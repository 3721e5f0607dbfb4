// A session: each line of the input is played as soon as it has arrived, and its answer put behind the others in a text.
#![tactic(auto)]

ghost use Rattle.std.specs.Prelude.{◌≡◌};
ghost use Rattle.replay_session.specs.Session.{line_ended, heard_all, session, LineEnds, HearsAll};

mod by;
mod line_player;
mod player;

pub use by::hear_all_by;
use codec::front;
pub use line_player::{LinePlayer, PlayFn};
pub use player::{Bench, Player};
use replay_answer::Session;
use replay_read::keep;
use replay_write::{end, place};

// The line that has arrived, played by the player; its answer goes behind the others.
fn end_line_with<P: Player>(
    s: Session,
    memory: &mut [u8],
    line: &[u8],
    text: &mut [u8],
    player: &P,
) -> Session
    ensures { LineEnds P.plays (session s memory.old line.now text.old) (session result memory.new line.now text.new) }
{
    let bytes = text.len();
    let at = place(text, s.wrote);
    let played = player.play(s.card, memory, front(line, s.count), &mut text[at..]);
    Session {
        card: played.card,
        count: 0,
        wrote: end(at, played.wrote, bytes),
    }
}

// All bytes of a chunk: a newline ends a line, which is played by the player, and others are kept.
pub fn hear_all_with<P: Player>(
    s: Session,
    memory: &mut [u8],
    line: &mut [u8],
    text: &mut [u8],
    chunk: &[u8],
    player: &P,
) -> Session
    ensures { HearsAll P.plays (session s memory.old line.old text.old) chunk.now (session result memory.new line.new text.new) }
{
    let mut now = s;
    for byte in chunk {
        if *byte == b'\n' {
            now = end_line_with(now, memory, line, text, player);
            continue;
        }
        now.count = keep(line, now.count, *byte);
    }
    now
}

// The line that has arrived, played on the card.
pub fn end_line(s: Session, memory: &mut [u8], line: &[u8], text: &mut [u8]) -> Session
    ensures { session result memory.new line.now text.new
        ≡ line_ended (session s memory.old line.now text.old) }
{
    end_line_with(s, memory, line, text, &Bench)
}

// All bytes of a chunk, each line of them played on the card.
pub fn hear_all(
    s: Session,
    memory: &mut [u8],
    line: &mut [u8],
    text: &mut [u8],
    chunk: &[u8],
) -> Session
    ensures { session result memory.new line.new text.new
        ≡ heard_all (session s memory.old line.old text.old) chunk.now }
{
    hear_all_with(s, memory, line, text, chunk, &Bench)
}
