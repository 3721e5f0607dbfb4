// Which records are unsound.
#![tactic(auto)]

ghost use Rattle.std.specs.Prelude.{◌≡◌, not, ◌&&◌, leb, take, drop};
ghost use Rattle.card.specs.Settings as Sizes;
ghost use Rattle.card.specs.Soundness.{bad_settings, unsound, unsound_tests, any_of, bad_password};

mod marks;
mod state;

use card::Core;
use card::size::{BLOCK, PASSWORD};
use card_settings::{allowed, capacity, csd_of};

// A setting is out of range, or the CSD is not the settings'.
fn bad_settings(c: Core) -> bool
    ensures { result ≡ bad_settings c }
{
    !(allowed(c.settings) && card_settings::register::equal(c.csd, csd_of(c.settings)))
}

fn bad_length(length: u16) -> bool
    ensures { result ≡ not (leb 1 length && leb length Sizes.BLOCK) }
{
    !(1..=BLOCK).contains(&u32::from(length))
}

// The settings, the polls left, the block length, and the transfer.
#[tactic(auto, unfolding(card::specs::Soundness::unsound_tests, card::specs::Soundness::any_of))]
fn unsound_first(c: Core) -> bool
    ensures { result ≡ any_of (take 5 (unsound_tests c)) }
{
    let open = card_state::open(c.bus.state);
    bad_settings(c)
        || c.settings.polls < c.bus.polls
        || bad_length(c.length)
        || capacity(c.settings.blocks) < u64::from(card_state::transfer_address(open))
        || state::off_write(open)
}

// The blocks written, the erase addresses, the card's address, the marks, and the application mark.
#[tactic(auto, unfolding(card::specs::Soundness::unsound_tests, card::specs::Soundness::any_of))]
fn unsound_rest(c: Core) -> bool
    ensures { result ≡ any_of (drop 5 (unsound_tests c)) }
{
    let blocks = c.settings.blocks;
    let top = capacity(blocks);
    blocks < c.written
        || state::written_most(card_state::open(c.bus.state), blocks) < c.written
        || state::mark_outside(top, c.erase.first)
        || state::mark_outside(top, c.erase.second)
        || state::bad_rca(c.bus)
        || marks::marked_from(&c.marks, card_settings::groups(blocks))
        || state::bad_app(c.bus)
}

// The items of 01's list that a record can break, in its order.
pub fn unsound(c: Core) -> bool
    ensures { result ≡ unsound c }
{
    unsound_first(c) || unsound_rest(c)
}

// The password's length: none though the card is locked, or more bytes than it can have.
#[tactic(auto, unfolding(card::specs::Soundness::bad_password))]
pub fn bad_password(locked: bool, length: u8) -> bool
    ensures { result ≡ bad_password locked length }
{
    (locked & (length == 0)) | (length > PASSWORD)
}
