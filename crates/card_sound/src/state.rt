// What is asked of the transfer, of an erase mark, and of the state in a bus mode.
ghost use Rattle.std.specs.Prelude.{◌≡◌};
ghost use Rattle.card.specs.State.{number, in_spi};
ghost use Rattle.card.specs.Soundness.{off_write, sink_most, written_most, mark_outside, bad_rca, bad_app};

use card::size::BLOCK;
use card::{Bus, Open, Sink, State};
use card_settings::outside;
use card_state::{in_spi, sink_address};

// A write's address is no multiple of a block.
pub(crate) fn off_write(o: Open) -> bool
    ensures { result ≡ off_write o }
{
    match o {
        Open::Write(sink) => sink_address(sink) % BLOCK != 0,
        Open::Nothing | Open::Read(_) | Open::Busy(_) => false,
    }
}

fn sink_most(s: Sink, n: u32) -> u32
    ensures { result ≡ sink_most s n }
{
    match s {
        Sink::Single { address, .. } | Sink::Multiple { address, .. } => address / BLOCK,
        Sink::LockUnlock => n,
    }
}

// The blocks below a write transfer's address, or n elsewhere: 42's has none.
pub(crate) fn written_most(o: Open, n: u32) -> u32
    ensures { result ≡ written_most o n }
{
    match o {
        Open::Write(sink) => sink_most(sink, n),
        Open::Nothing | Open::Read(_) | Open::Busy(_) => n,
    }
}

// A marked address at the end of the card or behind it.
pub(crate) fn mark_outside(top: u64, mark: Option<u32>) -> bool
    ensures { result ≡ mark_outside top mark }
{
    mark.is_some_and(|address| outside(top, address))
}

// In SD mode: the RCA is nonzero in idle, ready and ident, or zero in stby to dis; free in ina.
#[tactic(auto, unfolding(card::specs::Soundness::bad_rca))]
pub(crate) fn bad_rca(bus: Bus) -> bool
    ensures { result ≡ bad_rca (in_spi bus.mode) (number bus.state) bus.rca }
{
    if in_spi(bus.mode) {
        return false;
    }
    match bus.state {
        State::Idle | State::Ready | State::Ident => bus.rca != 0,
        State::Ina => false,
        _ => bus.rca == 0,
    }
}

// In SD mode: the application mark in ready, ident or ina.
#[tactic(auto, unfolding(card::specs::Soundness::bad_app))]
pub(crate) fn bad_app(bus: Bus) -> bool
    ensures { result ≡ bad_app (in_spi bus.mode) (number bus.state) bus.app }
{
    !in_spi(bus.mode) && bus.app && matches!(bus.state, State::Ready | State::Ident | State::Ina)
}
