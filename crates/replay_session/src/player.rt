// What plays a line of input on a card.
ghost use Rattle.std.specs.Prelude.{◌≡◌};
ghost use Rattle.card.specs.Step.{world};
ghost use Rattle.replay_answer.specs.Played.{shown};
ghost use Rattle.replay_line.specs.Replay.{play_line};
ghost use Rattle.replay_session.specs.Session.{Plays};

use card::Card;
use replay_answer::Replayed;

pub trait Player {
    // what may be shown of a line that is played on a world, into a text
    ghost plays: { Plays };

    fn play(&self, card: Card, memory: &mut [u8], line: &[u8], text: &mut [u8]) -> Replayed
        ensures { plays (world card memory.old) line.now text.old (shown result memory.new text.new) };
}

// The lines of the replay program.
#[derive(Clone, Copy)]
pub struct Bench;

impl Player for Bench {
    ghost plays = { λ w line text x. x ≡ play_line w line text };

    fn play(&self, card: Card, memory: &mut [u8], line: &[u8], text: &mut [u8]) -> Replayed {
        replay_line::play(card, memory, line, text)
    }
}
