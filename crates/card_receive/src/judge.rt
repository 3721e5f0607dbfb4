// Which command a frame asks for, whether it is allowed, and what it does then: the same in every bus mode.
ghost use Rattle.std.specs.Prelude.{◌≡◌};
ghost use Rattle.card.specs.Frame.{judge};

use card::Core;
use card::done::Judged;
use card_erase::settled;
use card_index::{command_of, own};
use card_run::run;
use card_table::{accepts, legal, misses};

#[tactic(auto, unfolding(card::specs::Frame::judge))]
pub fn judge(c: Core, index: u8, argument: u32) -> Judged
    ensures { result ≡ judge c index argument }
{
    let command = command_of(c.bus, index, argument);
    if !(accepts(command, c.locked) && legal(command, c.bus)) {
        return Judged::NotAllowed { command };
    }
    if misses(command, own(c.bus, argument)) {
        return Judged::OtherCard { command };
    }
    Judged::Ran {
        command,
        done: run(command, settled(command, c), argument),
    }
}
