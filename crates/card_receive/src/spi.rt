// The frame rules of SPI mode, in order: what is damaged or not allowed is answered, and no status bit is kept or cleared by it.
ghost use Rattle.std.specs.Prelude.{◌≡◌};
ghost use Rattle.card.specs.Receive.{receive_spi};
ghost use Rattle.card_turn.specs.Turned.{turned};

use crate::judge::judge;
use card::Core;
use card::done::Flag;
use card_spi::byte::crc_error;
use card_spi::show_spi;
use card_state::{checking, in_idle};
use card_turn::{Turned, error, quiet};
use wire_frame::command::{Fault, check_by};

#[tactic(auto, unfolding(card::specs::Receive::by_check_spi))]
pub fn receive_spi(c: Core, frame: &[u8]) -> Turned
    ensures { turned result ≡ receive_spi c frame.now }
{
    match check_by(checking(c.bus.mode), frame) {
        Ok(fields) => show_spi(c, judge(c, fields.index, fields.argument)),
        Err(Fault::Size | Fault::Start) => quiet(c, Flag::Keep),
        Err(Fault::Check) => error(c, crc_error(in_idle(c.bus.state))),
    }
}
