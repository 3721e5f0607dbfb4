// The transition table: a row for each command.
#![tactic(auto)]

ghost use Rattle.std.specs.Prelude.{◌≡◌, ◌≤◌};
ghost use Rattle.card.specs.Table.{row, moves, shows_app, sets_app, misses, accepts, legal, after};
ghost use Rattle.card_table.specs.Packed.{move_from, packed_row};

use card::command::{Command, Kind, Rca};
use card::{Bus, State};
use card_state::{arrive, in_spi, number_in};

#[derive(Clone, Copy)]
pub struct Columns {
    pub index: u8,
    pub kind: Kind,
    pub rca: Rca,
    // it leaves pending erase marks
    pub keeps_erase: bool,
    // a locked card accepts it
    pub when_locked: bool,
    // moves in either bus mode, a hex digit for each state, ina first, idle last: the number of the state that it leads to, F where none:
    // a row of the table is one line, and all moves of a command are seen at a glance
    pub sd: u64,
    pub spi: u64,
}

// Bools by name: the model's columns are bools, and the table is read by these words.
const KEEPS: bool = true;

const DROPS: bool = false;

const ALWAYS: bool = true;

const UNLOCKED: bool = false;

// No move.
const NEVER: u64 = 0xFFFFFFFFFF;

fn of(
    index: u8,
    kind: Kind,
    rca: Rca,
    keeps_erase: bool,
    when_locked: bool,
    sd: u64,
    spi: u64,
) -> Columns
    ensures { result ≡ record { index = index; kind = kind; rca = rca; keeps_erase = keeps_erase; when_locked = when_locked; sd = sd; spi = spi } }
{
    Columns {
        index,
        kind,
        rca,
        keeps_erase,
        when_locked,
        sd,
        spi,
    }
}

// This one and the next four are `of` with columns that rows share, so that each row of the table stays one line.
fn plain(index: u8, rca: Rca, keeps_erase: bool, when_locked: bool, sd: u64, spi: u64) -> Columns
    ensures { result ≡ record { index = index; kind = Kind.Plain; rca = rca; keeps_erase = keeps_erase; when_locked = when_locked; sd = sd; spi = spi } }
{
    of(index, Kind::Plain, rca, keeps_erase, when_locked, sd, spi)
}

fn addressed(index: u8, keeps_erase: bool, when_locked: bool, sd: u64, spi: u64) -> Columns
    ensures { result ≡ record { index = index; kind = Kind.Plain; rca = Rca.Addressed; keeps_erase = keeps_erase; when_locked = when_locked; sd = sd; spi = spi } }
{
    of(
        index,
        Kind::Plain,
        Rca::Addressed,
        keeps_erase,
        when_locked,
        sd,
        spi,
    )
}

fn app_cmd(index: u8, keeps_erase: bool, when_locked: bool, sd: u64, spi: u64) -> Columns
    ensures { result ≡ record { index = index; kind = Kind.AppCmd; rca = Rca.Addressed; keeps_erase = keeps_erase; when_locked = when_locked; sd = sd; spi = spi } }
{
    of(
        index,
        Kind::AppCmd,
        Rca::Addressed,
        keeps_erase,
        when_locked,
        sd,
        spi,
    )
}

fn application(index: u8, keeps_erase: bool, when_locked: bool, sd: u64, spi: u64) -> Columns
    ensures { result ≡ record { index = index; kind = Kind.Application; rca = Rca.Unused; keeps_erase = keeps_erase; when_locked = when_locked; sd = sd; spi = spi } }
{
    of(
        index,
        Kind::Application,
        Rca::Unused,
        keeps_erase,
        when_locked,
        sd,
        spi,
    )
}

// The same moves in both modes.
fn alike(index: u8, kind: Kind, keeps_erase: bool, when_locked: bool, moves: u64) -> Columns
    ensures { result ≡ record { index = index; kind = kind; rca = Rca.Unused; keeps_erase = keeps_erase; when_locked = when_locked; sd = moves; spi = moves } }
{
    of(
        index,
        kind,
        Rca::Unused,
        keeps_erase,
        when_locked,
        moves,
        moves,
    )
}

pub fn row(command: Command) -> Columns
    ensures { result ≡ packed_row command }
{
    match command {
        // index, RCA or kind, erase marks, on which cards, moves in SD mode and in SPI mode
        Command::GoIdleState => alike(0, Kind::Plain, KEEPS, ALWAYS, 0xF000000000),
        Command::AllSendCid => plain(2, Rca::Unused, DROPS, ALWAYS, 0xFFFFFFFF2F, NEVER),
        Command::SendRelativeAddr => plain(3, Rca::Unused, DROPS, ALWAYS, 0xFFFFFF33FF, NEVER),
        Command::SelectCard => plain(7, Rca::Own, DROPS, ALWAYS, 0xF7FFFF4FFF, NEVER),
        Command::DeselectCard => plain(7, Rca::Other, DROPS, ALWAYS, 0xFF8F333FFF, NEVER),
        Command::SendIfCond => plain(8, Rca::Unused, DROPS, ALWAYS, 0xFFFFFFFFF0, 0xFFFFF4FFF0),
        Command::SendCsd => addressed(9, DROPS, ALWAYS, 0xFFFFFF3FFF, 0xFFFFF5FFFF),
        Command::SendCid => addressed(10, DROPS, ALWAYS, 0xFFFFFF3FFF, 0xFFFFF5FFFF),
        Command::StopTransmission => alike(12, Kind::Plain, DROPS, ALWAYS, 0xFFF74FFFFF),
        Command::SendStatus => addressed(13, KEEPS, ALWAYS, 0xF876543FFF, 0xFF7654FFFF),
        Command::AppCmd => app_cmd(55, DROPS, ALWAYS, 0xF876543FF0, 0xFFFFF4FFF0),
        Command::GoInactiveState => addressed(15, DROPS, ALWAYS, 0xF999999FFF, NEVER),
        Command::SetBlocklen => alike(16, Kind::Plain, DROPS, ALWAYS, 0xFFFFF4FFFF),
        Command::ReadSingleBlock => alike(17, Kind::Plain, DROPS, UNLOCKED, 0xFFFFF5FFFF),
        Command::ReadMultipleBlock => alike(18, Kind::Plain, DROPS, UNLOCKED, 0xFFFFF5FFFF),
        Command::SendWriteProt => alike(30, Kind::Plain, DROPS, UNLOCKED, 0xFFFFF5FFFF),
        Command::WriteBlock => alike(24, Kind::Plain, DROPS, UNLOCKED, 0xFFFFF6FFFF),
        Command::WriteMultipleBlock => alike(25, Kind::Plain, DROPS, UNLOCKED, 0xFFFFF6FFFF),
        Command::LockUnlock => alike(42, Kind::Plain, DROPS, ALWAYS, 0xFFFFF6FFFF),
        Command::SetWriteProt => alike(28, Kind::Plain, DROPS, UNLOCKED, 0xFFFFF7FFFF),
        Command::ClrWriteProt => alike(29, Kind::Plain, DROPS, UNLOCKED, 0xFFFFF7FFFF),
        Command::Erase => alike(38, Kind::Plain, KEEPS, UNLOCKED, 0xFFFFF7FFFF),
        Command::EraseWrBlkStart => alike(32, Kind::Plain, KEEPS, UNLOCKED, 0xFFFFF4FFFF),
        Command::EraseWrBlkEnd => alike(33, Kind::Plain, KEEPS, UNLOCKED, 0xFFFFF4FFFF),
        Command::SdStatus => alike(13, Kind::Application, DROPS, UNLOCKED, 0xFFFFF5FFFF),
        Command::SendNumWrBlocks => alike(22, Kind::Application, DROPS, UNLOCKED, 0xFFFFF5FFFF),
        Command::SendScr => alike(51, Kind::Application, DROPS, UNLOCKED, 0xFFFFF5FFFF),
        Command::SetWrBlkEraseCount => alike(23, Kind::Application, DROPS, UNLOCKED, 0xFFFFF4FFFF),
        Command::SetClrCardDetect => alike(42, Kind::Application, DROPS, ALWAYS, 0xFFFFF4FFFF),
        Command::SdSendOpCond => application(41, DROPS, ALWAYS, 0xFFFFFFFFF0, 0xFFFFF4FFF0),
        Command::ReadOcr => plain(58, Rca::Unused, DROPS, ALWAYS, NEVER, 0xFFFFF4FFF0),
        Command::CrcOnOff => plain(59, Rca::Unused, DROPS, ALWAYS, NEVER, 0xFFFFF4FFF0),
        Command::Unknown => alike(64, Kind::Plain, DROPS, UNLOCKED, NEVER),
    }
}

// Addressed to another RCA.
pub fn misses(command: Command, own: bool) -> bool
    ensures { result ≡ misses (row command).rca own }
{
    matches!(row(command).rca, Rca::Addressed) && !own
}

pub fn shows_app(command: Command) -> bool
    ensures { result ≡ shows_app (row command).kind }
{
    matches!(row(command).kind, Kind::AppCmd | Kind::Application)
}

pub fn sets_app(command: Command) -> bool
    ensures { result ≡ sets_app (row command).kind }
{
    matches!(row(command).kind, Kind::AppCmd)
}

pub fn keeps_erase(command: Command) -> bool
    ensures { result ≡ (row command).keeps_erase }
{
    row(command).keeps_erase
}

// On a card that is locked or not.
#[tactic(auto, unfolding(card::specs::Table::accepts))]
pub fn accepts(command: Command, locked: bool) -> bool
    ensures { result ≡ accepts command locked }
{
    row(command).when_locked | !locked
}

pub fn index(command: Command) -> u8
    ensures { result ≡ (row command).index }
{
    row(command).index
}

// A digit of the row's moves; F is none.
fn lead(command: Command, spi: bool, from: u8) -> Option<u8>
    requires { from ≤ 9 }
    ensures { result ≡ move_from (moves spi command) from }
{
    let found = row(command);
    let moves = if spi { found.spi } else { found.sd };
    let to = ((moves >> (4 * from)) & 0xF) as u8;
    (to != 0xF).then_some(to)
}

// In this bus mode and state.
pub fn legal(command: Command, bus: Bus) -> bool
    ensures { result ≡ legal command bus }
{
    let spi = in_spi(bus.mode);
    lead(command, spi, number_in(spi, bus.state)).is_some()
}

// The state after a command, with transfer t where it opens one.
pub fn after(command: Command, bus: Bus, t: State) -> State
    ensures { result ≡ after command bus t }
{
    let spi = in_spi(bus.mode);
    let from = number_in(spi, bus.state);
    arrive(lead(command, spi, from).unwrap_or(from), t)
}
