// What plays a line of input on a card, and promises by its own value; a function that does.
ghost use Rattle.card.specs.Step.{world};
ghost use Rattle.replay_answer.specs.Played.{shown};
ghost use Rattle.replay_session.specs.Session.{Plays, PlayedBy};

use card::Card;
use replay_answer::Replayed;

pub trait LinePlayer {
    // what may be shown of a line that this very value plays
    ghost plays_by: { Self → Plays };

    fn play_line(&self, card: Card, memory: &mut [u8], line: &[u8], text: &mut [u8]) -> Replayed
        ensures { plays_by self.now (world card memory.old) line.now text.old (shown result memory.new text.new) };
}

// It may be called whatever the card and the line: the type says so, and therefore no call asks for it.
#[derive(Drop)]
pub struct PlayFn {
    pub play: fn(Card, &mut [u8], &[u8], &mut [u8]) -> Replayed,
    pub ghost callable: { IsAlwaysCallable play },
}

impl LinePlayer for PlayFn {
    ghost plays_by = { λ by. PlayedBy (post by.play) };

    fn play_line(&self, card: Card, memory: &mut [u8], line: &[u8], text: &mut [u8]) -> Replayed {
        (self.play)(card, memory, line, text)
    }
}
