// The command that the card takes an index for: the first row that fits.
#![tactic(auto)]

ghost use Rattle.std.specs.Prelude.{◌≡◌};
ghost use Rattle.std.specs.Option.{unwrap_or};
ghost use Rattle.card.specs.declared.command.Command.{Command};
ghost use Rattle.card.specs.Table.{commands, is_application, takes, fits, find, own, command_of};

use card::Bus;
use card::command::{Command, Kind, Rca};
use card_state::in_spi;
use card_table::row;

fn is_application(kind: Kind) -> bool
    ensures { result ≡ is_application kind }
{
    matches!(kind, Kind::Application)
}

fn takes(rca: Rca, own: bool) -> bool
    ensures { result ≡ takes rca own }
{
    match rca {
        Rca::Unused | Rca::Addressed => true,
        Rca::Own => own,
        Rca::Other => !own,
    }
}

#[tactic(auto, unfolding(card::specs::Table::fits))]
fn fits(command: Command, application: bool, index: u8, own: bool) -> bool
    ensures { result ≡ fits application index own command }
{
    let found = row(command);
    found.index == index && is_application(found.kind) == application && takes(found.rca, own)
}

// The first command with the index.
fn find(application: bool, index: u8, own: bool) -> Option<Command>
    ensures { (other : Command) → unwrap_or result other ≡ find commands application index own other }
{
    let all = [
        Command::GoIdleState,
        Command::AllSendCid,
        Command::SendRelativeAddr,
        Command::SelectCard,
        Command::DeselectCard,
        Command::SendIfCond,
        Command::SendCsd,
        Command::SendCid,
        Command::StopTransmission,
        Command::SendStatus,
        Command::AppCmd,
        Command::GoInactiveState,
        Command::SetBlocklen,
        Command::ReadSingleBlock,
        Command::ReadMultipleBlock,
        Command::SendWriteProt,
        Command::WriteBlock,
        Command::WriteMultipleBlock,
        Command::LockUnlock,
        Command::SetWriteProt,
        Command::ClrWriteProt,
        Command::Erase,
        Command::EraseWrBlkStart,
        Command::EraseWrBlkEnd,
        Command::SdStatus,
        Command::SendNumWrBlocks,
        Command::SendScr,
        Command::SetWrBlkEraseCount,
        Command::SetClrCardDetect,
        Command::SdSendOpCond,
        Command::ReadOcr,
        Command::CrcOnOff,
    ];
    all.iter()
        .copied()
        .find(|command| fits(*command, application, index, own))
}

// The argument's RCA is the card's; in SPI mode it is not compared.
#[tactic(auto, unfolding(card::specs::Table::own))]
pub fn own(bus: Bus, argument: u32) -> bool
    ensures { result ≡ own bus argument }
{
    in_spi(bus.mode) || (argument >> 16) == (bus.rca as u32)
}

// After 55 an index with an A row is that command, and others stay as they are.
#[tactic(auto, unfolding(card::specs::Table::command_of))]
pub fn command_of(bus: Bus, index: u8, argument: u32) -> Command
    ensures { result ≡ command_of bus index argument }
{
    let mine = own(bus, argument);
    let plain = find(false, index, mine).unwrap_or(Command::Unknown);
    if bus.app {
        find(true, index, mine).unwrap_or(plain)
    } else {
        plain
    }
}
