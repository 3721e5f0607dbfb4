// The record's parts, one update for each.
#![tactic(auto)]

pub mod erase;

ghost use Rattle.std.specs.Prelude.{◌≡◌};
ghost use Rattle.card.specs.Record.{with_bus, with_state, with_app, with_rca, with_polls, with_mode, with_kept, with_erase, with_length, with_written, with_marks, with_locked, with_settings};
ghost use Rattle.card.specs.Execute.{raise, reset, drop_erase};

use card::size::BLOCK;
use card::{Bus, Core, EraseMarks, Kept, Mode, Settings, State};
use card_settings::csd_of;
use card_state::unchecked;
use card_status::{join, no_bits, only};
use erase::no_erase;

pub fn with_bus(c: Core, bus: Bus) -> Core
    ensures { result ≡ with_bus c bus }
{
    Core { bus, ..c }
}

pub fn with_kept(c: Core, kept: Kept) -> Core
    ensures { result ≡ with_kept c kept }
{
    Core { kept, ..c }
}

pub fn with_erase(c: Core, erase: EraseMarks) -> Core
    ensures { result ≡ with_erase c erase }
{
    Core { erase, ..c }
}

pub fn with_length(c: Core, length: u16) -> Core
    ensures { result ≡ with_length c length }
{
    Core { length, ..c }
}

pub fn with_written(c: Core, written: u32) -> Core
    ensures { result ≡ with_written c written }
{
    Core { written, ..c }
}

pub fn with_marks(c: Core, marks: [u8; 256]) -> Core
    ensures { result ≡ with_marks c marks }
{
    Core { marks, ..c }
}

pub fn with_locked(c: Core, locked: bool) -> Core
    ensures { result ≡ with_locked c locked }
{
    Core { locked, ..c }
}

// The CSD is the settings in the standard's form.
pub fn with_settings(c: Core, settings: Settings) -> Core
    ensures { result ≡ with_settings c settings }
{
    Core {
        settings,
        csd: csd_of(settings),
        ..c
    }
}

pub fn with_state(c: Core, s: State) -> Core
    ensures { result ≡ with_state c s }
{
    with_bus(c, Bus { state: s, ..c.bus })
}

pub fn with_mode(c: Core, mode: Mode) -> Core
    ensures { result ≡ with_mode c mode }
{
    with_bus(c, Bus { mode, ..c.bus })
}

pub fn with_app(c: Core, app: bool) -> Core
    ensures { result ≡ with_app c app }
{
    with_bus(c, Bus { app, ..c.bus })
}

// The address that command 3 publishes is the card's own from then on.
pub fn with_rca(c: Core, address: u16) -> Core
    ensures { result ≡ with_rca c address }
{
    with_bus(
        c,
        Bus {
            rca: address,
            published: address,
            ..c.bus
        },
    )
}

pub fn with_polls(c: Core, polls: u8) -> Core
    ensures { result ≡ with_polls c polls }
{
    with_bus(c, Bus { polls, ..c.bus })
}

// A status bit is set, by its number, which may be any.
pub fn raise(c: Core, n: u8) -> Core
    ensures { result ≡ raise c n }
{
    with_kept(c, join(c.kept, only(n)))
}

// The erase marks go.
pub fn drop_erase(c: Core) -> Core
    ensures { result ≡ drop_erase c }
{
    with_erase(c, no_erase())
}

// Command 0: all but the settings, the bus mode, the last published address, the lock and the marks.
pub fn reset(c: Core) -> Core
    ensures { result ≡ reset c }
{
    let bus = Bus {
        mode: unchecked(c.bus.mode),
        state: State::Idle,
        rca: 0,
        polls: c.settings.polls,
        app: false,
        ..c.bus
    };
    Core {
        bus,
        kept: no_bits(),
        erase: no_erase(),
        length: BLOCK as u16,
        written: 0,
        ..c
    }
}
