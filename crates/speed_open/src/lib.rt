// A card that is brought up in either bus mode, with checks on, and given a command.
#![tactic(auto)]

ghost use Rattle.std.specs.Prelude.{◌≡◌};
ghost use Rattle.speed_open.specs.Begun.{settings, powered, heard, begun};
ghost use Rattle.card.specs.Step.{world};

use card::{Card, Settings};
use card_password::no_password;

// Unprotected, no polls, CID zero.
fn settings(bytes: usize) -> Settings
    ensures { result ≡ settings bytes }
{
    Settings {
        blocks: (bytes / card::size::BLOCK as usize % 0x1_0000_0000) as u32,
        ..Settings::default()
    }
}

// The record after a power-up.
fn powered(memory: &[u8]) -> Card
    ensures { world result memory.now ≡ powered memory.now }
{
    card_power::power_up(
        card_power::unpowered(),
        settings(memory.len()),
        no_password(),
        memory,
    )
    .card
}

// The record after a frame.
fn hear(card: Card, spi: bool, frame: [u8; 6], memory: &mut [u8]) -> Card
    ensures { world result memory.new ≡ heard (world card memory.old) spi frame }
{
    let mut out = [0u8; 17];
    card_command::command_frame(card, &frame, spi, memory, &mut out).card
}

// 0, 55, A41, 59 and 13.
const SPI_MODE: [[u8; 6]; 5] = [
    [0x40, 0, 0, 0, 0, 0x95],
    [0x77, 0, 0, 0, 0, 0x65],
    [0x69, 0, 0, 0, 0, 0xE5],
    [0x7B, 0, 0, 0, 1, 0x83],
    [0x4D, 0, 0, 0, 0, 0x0D],
];

// 55, A41, 2, 3 and 7.
const SD_MODE: [[u8; 6]; 5] = [
    [0x77, 0, 0, 0, 0, 0x65],
    [0x69, 0, 0xFF, 0x80, 0, 0x85],
    [0x42, 0, 0, 0, 0, 0x4D],
    [0x43, 0, 0, 0, 0, 0x21],
    [0x47, 0, 1, 0, 0, 0xDD],
];

// By the frames of the mode, and then one more.
pub fn open(spi: bool, frame: [u8; 6], memory: &mut [u8]) -> Card
    ensures { world result memory.new ≡ begun spi frame memory.old }
{
    let frames = if spi { SPI_MODE } else { SD_MODE };
    let mut card = powered(memory);
    for sent in frames {
        card = hear(card, spi, sent, memory);
    }
    hear(card, spi, frame, memory)
}
