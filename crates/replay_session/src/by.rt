// A session whose lines are played by a value that promises for itself: as `hear_all_with`, which the programs go by.
ghost use Rattle.replay_session.specs.Session.{session, LineEnds, HearsAll};

use super::LinePlayer;
use codec::front;
use replay_answer::Session;
use replay_read::keep;
use replay_write::{end, place};

// The line that has arrived, played by the player; its answer goes behind the others.
fn end_line_by<P: LinePlayer>(
    s: Session,
    memory: &mut [u8],
    line: &[u8],
    text: &mut [u8],
    by: &P,
) -> Session
    ensures { LineEnds (P.plays_by by.now) (session s memory.old line.now text.old) (session result memory.new line.now text.new) }
{
    let bytes = text.len();
    let at = place(text, s.wrote);
    let played = by.play_line(s.card, memory, front(line, s.count), &mut text[at..]);
    Session {
        card: played.card,
        count: 0,
        wrote: end(at, played.wrote, bytes),
    }
}

// All bytes of a chunk: a newline ends a line, which is played by the player, and others are kept.
pub fn hear_all_by<P: LinePlayer>(
    s: Session,
    memory: &mut [u8],
    line: &mut [u8],
    text: &mut [u8],
    chunk: &[u8],
    by: &P,
) -> Session
    ensures { HearsAll (P.plays_by by.now) (session s memory.old line.old text.old) chunk.now
        (session result memory.new line.new text.new) }
{
    let mut now = s;
    for byte in chunk {
        if *byte == b'\n' {
            now = end_line_by(now, memory, line, text, by);
            continue;
        }
        now.count = keep(line, now.count, *byte);
    }
    now
}
