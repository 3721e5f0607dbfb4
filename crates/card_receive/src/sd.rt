// The frame rules of SD mode, in order: one walk over the frame gives the command or what is wrong with it.
ghost use Rattle.std.specs.Prelude.{◌≡◌};
ghost use Rattle.card.specs.Receive.{receive_sd};
ghost use Rattle.card_turn.specs.Turned.{turned};

use crate::judge::judge;
use card::done::Flag;
use card::{Core, State};
use card_finish::show_sd;
use card_turn::{Turned, quiet};
use wire_frame::command::Fault;

// `low`: chip select is low.
#[tactic(auto, unfolding(card::specs::Receive::receive_sd, card::specs::Receive::by_check))]
pub fn receive_sd(c: Core, low: bool, frame: &[u8]) -> Turned
    ensures { turned result ≡ receive_sd c low frame.now }
{
    if matches!(c.bus.state, State::Ina) {
        return quiet(c, Flag::Keep);
    }
    match wire_frame::command::check(frame) {
        Ok(fields) => show_sd(c, low, judge(c, fields.index, fields.argument)),
        Err(Fault::Size | Fault::Start) => quiet(c, Flag::Keep),
        Err(Fault::Check) => quiet(c, Flag::Set),
    }
}
