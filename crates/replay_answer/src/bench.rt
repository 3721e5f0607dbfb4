// The card of the bench.
ghost use Rattle.std.specs.Prelude.{◌≡◌};
ghost use Rattle.card.specs.Step.{start};
ghost use Rattle.card.specs.Reading.{bench};
ghost use Rattle.card.specs.Lock.{no_password};

use card::{Card, Settings};
use card_password::no_password;

// 01's card, powered up: 64 blocks, unprotected, no polls, CID zero, no password.
pub fn bench(memory: &[u8; 32768]) -> Card
    ensures { result ≡ start bench no_password }
{
    let settings = Settings {
        blocks: 64,
        ..Settings::default()
    };
    card_power::power_up(card_power::unpowered(), settings, no_password(), memory).card
}
