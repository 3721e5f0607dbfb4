// The bus mode, and what a state has open: every question that is asked of a state goes by these.
#![tactic(auto)]

ghost use Rattle.std.specs.Prelude.{◌≡◌, ◌≤◌, eqb};
ghost use Rattle.card.specs.declared.Source.TheVariants.{Blocks};
ghost use Rattle.card.specs.State.{idle, number, arrive, in_spi, checking, unchecked, number_in, open_of, reading, writing, busy, writing_multiple, locking, source_address, sink_address, transfer_address, sink};

use card::{Mode, Open, Sink, Source, State};

pub fn in_idle(s: State) -> bool
    ensures { result ≡ eqb (number s) idle }
{
    matches!(s, State::Idle)
}

// The state of a number, as the transition table has them; of any other it is ina. Data and rcv are the transfer that t is.
#[tactic(auto, unfolding(card::specs::State::arrive))]
pub fn arrive(n: u8, t: State) -> State
    ensures { result ≡ arrive n t }
{
    match n {
        0 => State::Idle,
        1 => State::Ready,
        2 => State::Ident,
        3 => State::Stby,
        4 => State::Tran,
        5 | 6 => t,
        7 => State::Prg,
        8 => State::Dis,
        _ => State::Ina,
    }
}

pub fn in_spi(m: Mode) -> bool
    ensures { result ≡ in_spi m }
{
    matches!(m, Mode::Spi { .. })
}

// Whether CRC7 and CRC16 are judged.
pub fn checking(m: Mode) -> bool
    ensures { result ≡ checking m }
{
    match m {
        Mode::Sd => true,
        Mode::Spi { checks } => checks,
    }
}

// Command 0 turns the checks off, and leaves the mode.
pub fn unchecked(m: Mode) -> Mode
    ensures { result ≡ unchecked m }
{
    match m {
        Mode::Sd => Mode::Sd,
        Mode::Spi { .. } => Mode::Spi { checks: false },
    }
}

// The number by which the table of a mode goes: in SPI mode that of what counts there. No type of its own for a number up to 9: `arrive`
// and `status` promise their answer for any.
#[tactic(auto, unfolding(card::specs::State::number_in))]
pub fn number_in(spi: bool, s: State) -> u8
    ensures { (result ≡ number_in spi s) × (result ≤ 9) }
{
    if !spi {
        return u8::from(s);
    }
    match s {
        State::Idle => 0,
        State::Ready | State::Ident | State::Stby | State::Tran | State::Ina => 4,
        State::Data(_) => 5,
        State::Rcv(_) => 6,
        State::Prg | State::Dis => 7,
    }
}

// A transfer of blocks, of 17, 18, 24 or 25. A held one is silent until it is ended.
#[derive(Clone, Copy)]
pub struct Transfer {
    pub multiple: bool,
    pub address: u32,
    pub held: bool,
}

// Of 17 and 18.
impl From<Transfer> for Source {
    ghost from_gives = { λ t source. source ≡ Blocks t.multiple t.address t.held };

    fn from(t: Transfer) -> Source {
        let Transfer {
            multiple,
            address,
            held,
        } = t;
        Source::Blocks {
            multiple,
            address,
            held,
        }
    }
}

// Of 24 and 25.
impl From<Transfer> for Sink {
    ghost from_gives = { λ t to. to ≡ sink t.multiple t.address t.held };

    fn from(t: Transfer) -> Sink {
        let Transfer {
            multiple,
            address,
            held,
        } = t;
        if multiple {
            Sink::Multiple { address, held }
        } else {
            Sink::Single { address, held }
        }
    }
}

pub fn open(s: State) -> Open
    ensures { result ≡ open_of s }
{
    match s {
        State::Data(source) => Open::Read(source),
        State::Rcv(sink) => Open::Write(sink),
        State::Prg => Open::Busy(State::Tran),
        State::Dis => Open::Busy(State::Stby),
        _ => Open::Nothing,
    }
}

pub fn reading(o: Open) -> bool
    ensures { result ≡ reading o }
{
    matches!(o, Open::Read(_))
}

pub fn writing(o: Open) -> bool
    ensures { result ≡ writing o }
{
    matches!(o, Open::Write(_))
}

pub fn busy(o: Open) -> bool
    ensures { result ≡ busy o }
{
    matches!(o, Open::Busy(_))
}

// The blocks of 25 are awaited.
pub fn writing_multiple(o: Open) -> bool
    ensures { result ≡ writing_multiple o }
{
    matches!(o, Open::Write(Sink::Multiple { .. }))
}

// The block of 42 is awaited.
pub fn locking(o: Open) -> bool
    ensures { result ≡ locking o }
{
    matches!(o, Open::Write(Sink::LockUnlock))
}

fn source_address(s: Source) -> u32
    ensures { result ≡ source_address s }
{
    match s {
        Source::Blocks { address, .. } | Source::WriteProtect { address } => address,
        Source::SdStatus | Source::WrittenBlocks | Source::Scr | Source::Csd | Source::Cid => 0,
    }
}

// 0 for that of 42, as the model has it.
pub fn sink_address(s: Sink) -> u32
    ensures { result ≡ sink_address s }
{
    match s {
        Sink::Single { address, .. } | Sink::Multiple { address, .. } => address,
        Sink::LockUnlock => 0,
    }
}

// The transfer's address; 0 where there is none, and no Option: the model has the 0 too, and every test of the address passes it.
pub fn transfer_address(o: Open) -> u32
    ensures { result ≡ transfer_address o }
{
    match o {
        Open::Read(source) => source_address(source),
        Open::Write(sink) => sink_address(sink),
        Open::Nothing | Open::Busy(_) => 0,
    }
}
