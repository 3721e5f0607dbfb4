// A frame, in the bus mode that the card is in.
#![tactic(auto)]

ghost use Rattle.std.specs.Prelude.{◌≡◌};
ghost use Rattle.card.specs.Receive.{receive};
ghost use Rattle.card_turn.specs.Turned.{turned};

pub mod judge;
pub mod sd;
pub mod spi;

use card::Core;
use card_state::in_spi;
use card_turn::Turned;
use sd::receive_sd;
use spi::receive_spi;

// `low`: chip select is low, which SPI mode does not look at.
#[tactic(auto, unfolding(card::specs::Receive::receive))]
pub fn receive(c: Core, low: bool, frame: &[u8]) -> Turned
    ensures { turned result ≡ receive c low frame.now }
{
    if in_spi(c.bus.mode) {
        receive_spi(c, frame)
    } else {
        receive_sd(c, low, frame)
    }
}
