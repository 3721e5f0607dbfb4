// Power up, and busy over. The record by value and back; memory is lent.
#![tactic(auto)]

ghost use Rattle.std.specs.Prelude.{◌≡◌, []};
ghost use Rattle.card.specs.Step.{fresh, start, unpowered, power_up, busy_over};
ghost use Rattle.card_call.specs.Seen.{returned, stepped};

use card::answer::{Answer, Rows};
use card::size::{BLOCK, PASSWORD};
use card::{Bus, Card, Core, Line, Mode, Open, Password, Settings, State};
use card_call::{Stepped, answered, refused};
use card_password::{is_set, kept, no_password};
use card_record::erase::no_erase;
use card_record::with_state;
use card_refuse::{check, rows};
use card_settings::{allowed, capacity};
use card_status::no_bits;
use codec::Refusal;

// What commands see of it.
fn fresh(settings: Settings, locked: bool) -> Core
    ensures { result ≡ fresh settings locked }
{
    Core {
        settings,
        csd: card_settings::csd_of(settings),
        bus: Bus {
            mode: Mode::Sd,
            state: State::Idle,
            rca: 0,
            published: 0,
            polls: settings.polls,
            app: false,
        },
        kept: no_bits(),
        erase: no_erase(),
        length: BLOCK as u16,
        written: 0,
        locked,
        marks: [0u8; 256],
    }
}

// The record that a history starts with: a card with a password starts locked.
fn start(settings: Settings, password: Password) -> Card
    ensures { result ≡ start settings password }
{
    let stored = kept(password);
    Card {
        core: fresh(settings, is_set(stored)),
        password: stored,
        line: Line {
            com_crc_error: false,
        },
    }
}

// The card before its first power-up, of no blocks: every other call is refused.
pub fn unpowered() -> Card
    ensures { result ≡ unpowered }
{
    start(Settings::default(), no_password())
}

// Power up. The record that was there stays where the call is refused.
pub fn power_up(card: Card, settings: Settings, password: Password, memory: &[u8]) -> Stepped
    ensures { returned result memory.now [] ≡ stepped card memory.now (power_up settings password) }
{
    let r = Rows {
        memory: memory.len() as u64 != capacity(settings.blocks),
        settings: !(allowed(settings) & (password.length <= PASSWORD)),
        ..Rows::default()
    };
    if let Err(refusal) = check(&[Refusal::Memory, Refusal::Setting], r) {
        return refused(card, refusal);
    }
    Stepped {
        answer: Answer::Over,
        card: start(settings, password),
    }
}

// Busy over.
pub fn busy_over(card: Card, memory: &[u8]) -> Stepped
    ensures { returned result memory.now [] ≡ stepped card memory.now busy_over }
{
    let open = card_state::open(card.core.bus.state);
    let r = rows(
        card.core,
        card.password.length,
        memory.len(),
        false,
        false,
        !card_state::busy(open),
    );
    if let Err(refusal) = check(&[Refusal::Record, Refusal::Memory, Refusal::Closed], r) {
        return refused(card, refusal);
    }
    match open {
        Open::Busy(next) => answered(card, with_state(card.core, next), Answer::Over),
        Open::Nothing | Open::Read(_) | Open::Write(_) => {
            answered(card, card.core, Answer::Silence)
        }
    }
}
