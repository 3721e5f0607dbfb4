// The tokens of blocks in SPI mode, and the sizes of blocks in either mode. No other code of a block asks for the mode.
#![tactic(auto)]

ghost use Rattle.std.specs.Prelude.{◌≡◌, Bool, ◌≤◌};
ghost use Rattle.card.specs.Spi.{start_token};
ghost use Rattle.card.specs.Step.{token_size, token_in, incoming};
ghost use Rattle.card_token.specs.Tokens.{packet_bytes, other_length, kind};

use card::size::BLOCK;
use card::{Mode, Open};
use card_state::{in_spi, locking, writing_multiple};
use wire_packet::CHECK;

// Leads every block from the card, and those of 24 and 42.
pub const START_BLOCK: u8 = 0xFE;

// Leads each block of 25.
const START_MULTIPLE: u8 = 0xFC;

// Ends 25.
const STOP_TRAN: u8 = 0xFD;

// What a block is behind its framing: a packet; the stop token of 25; or behind a wrong token.
#[derive(Clone, Copy, Debug, PartialEq, Eq)]
pub enum Arrived {
    Packet,
    Stop,
    Ignored,
}

// The bytes of the start token that leads a block.
#[tactic(auto, unfolding(card::specs::Step::token_size))]
pub fn token_size(m: Mode) -> usize
    ensures { (result ≡ token_size m) × (result ≤ 1) }
{
    usize::from(in_spi(m))
}

// The bytes of a packet that comes in: for 42 its payload has the set length.
fn packet_size(locks: bool, length: u16) -> usize
    ensures { (result ≡ packet_bytes locks length) × (result ≤ 65537) }
{
    let payload = if locks {
        length as usize
    } else {
        BLOCK as usize
    };
    payload + CHECK
}

// Row 1 of a block of n bytes. A lone byte is a size of 25's transfers in SPI mode.
pub fn other_block(m: Mode, o: Open, length: u16, n: usize) -> bool
    ensures { result ≡ other_length m o length n }
{
    n != token_size(m) + packet_size(locking(o), length)
        && !(in_spi(m) && writing_multiple(o) && n == 1)
}

#[tactic(auto, unfolding(card::specs::Spi::start_token))]
fn start_token(o: Open) -> u8
    ensures { result ≡ start_token o }
{
    if writing_multiple(o) {
        START_MULTIPLE
    } else {
        START_BLOCK
    }
}

// A lone byte is the stop token of 25.
#[tactic(auto, unfolding(card::specs::Step::token_in))]
fn token_in(o: Open, block: &[u8]) -> Arrived
    ensures { (checks : Bool) → result ≡ kind (token_in checks o block.now) }
{
    match block {
        [] => Arrived::Ignored,
        [token] => {
            if *token == STOP_TRAN {
                Arrived::Stop
            } else {
                Arrived::Ignored
            }
        }
        [token, ..] => {
            if *token == start_token(o) {
                Arrived::Packet
            } else {
                Arrived::Ignored
            }
        }
    }
}

#[tactic(auto, unfolding(card::specs::Step::incoming))]
pub fn incoming(m: Mode, o: Open, block: &[u8]) -> Arrived
    ensures { result ≡ kind (incoming m o block.now) }
{
    if in_spi(m) {
        token_in(o, block)
    } else {
        Arrived::Packet
    }
}
