// The sequence, a row for each command; what makes a poll, and what echoes 8.
#![tactic(auto)]

ghost use Rattle.std.specs.Prelude.{◌≡◌, ◌&&◌, eqb, leb};
ghost use Rattle.host.specs.Sequence.{VOLTAGE, PATTERN, SD_SEND_OP_COND, columns, row};
ghost use Rattle.host.specs.Host.{of_poll};

use host::{Command, Kind, Row};

fn columns(index: u8, argument: u32, answer: Kind, next: Option<Command>) -> Row
    ensures { result ≡ columns index argument answer next }
{
    Row {
        index,
        argument,
        answer,
        next,
    }
}

// The row of a command, for a card with this RCA. Columns: index, argument, answer, what follows it.
#[tactic(auto, unfolding(host::specs::Sequence::row))]
pub fn row(command: Command, rca: u16) -> Row
    ensures { result ≡ row command rca }
{
    let addressed = u32::from(rca) << 16;
    match command {
        Command::GoIdleState => columns(0, 0, Kind::Silence, Some(Command::SendIfCond)),
        Command::SendIfCond => columns(8, 0x1AA, Kind::R7, Some(Command::AppCmd)),
        Command::AppCmd => columns(55, 0, Kind::R1, Some(Command::SdSendOpCond)),
        Command::SdSendOpCond => columns(41, 0xFF8000, Kind::R3, Some(Command::AllSendCid)),
        Command::AllSendCid => columns(2, 0, Kind::Cid, Some(Command::SendRelativeAddr)),
        Command::SendRelativeAddr => columns(3, 0, Kind::R6, Some(Command::SendCsd)),
        Command::SendCsd => columns(9, addressed, Kind::Csd, Some(Command::SelectCard)),
        Command::SelectCard => columns(7, addressed, Kind::R1, None),
    }
}

// A poll is counted where A41 is sent. This one and the next go by the index, as frames do, and promise their answer for any.
pub fn counts(index: u8) -> bool
    ensures { result ≡ eqb index SD_SEND_OP_COND }
{
    index == 41
}

// A command of a poll, which are 55 and A41, and none is left.
pub fn exhausted(index: u8, limit: u16, polls: u16) -> bool
    ensures { result ≡ (of_poll index && leb limit polls) }
{
    matches!(index, 55 | 41) && limit <= polls
}

// An R7 echoes 8: voltage and pattern are those that were sent.
pub fn echoes(voltage: u8, pattern: u8) -> bool
    ensures { result ≡ (eqb voltage VOLTAGE && eqb pattern PATTERN) }
{
    voltage == 1 && pattern == 0xAA
}
